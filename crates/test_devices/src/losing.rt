//! A datagram is lost on its way, and the reader waits for the next key frame.
ghost use Rattle.std.specs.Prelude.{IfOk};
ghost use Rattle.device.specs.Sides.{IsPublisher, IsSubscriber};

use dataset_reader::Why;
use device::{Next, NoValue, Publisher, Subscriber};
use std::alloc::Global;
use std::test::Fail;
use ua_values::{Kind, Value};

/// Each third data frame is a key frame, the others are delta frames.
const CONFIGURATION: &str = r#"
[publisher]
id = "u8:5"

[[dataset]]
name = "demo"
[[dataset.field]]
name = "a"
kind = "UInt32"

[[group]]
name = "g1"
id = 1
interval = 100
[[group.writer]]
name = "w1"
id = 1
dataset = "demo"
key_frame_count = 3

[[readgroup]]
name = "rg1"
publisher = "u8:5"
group = 1
[[readgroup.reader]]
name = "r1"
writer = 1
dataset = "demo"
"#;

/// Of the turns 1 to 4 the datagram of the second is lost: the third brings a delta frame, which the reader can't use, and the fourth a
/// key frame.
#[test]
fn a_reader_waits_for_the_key_frame_after_a_loss(rt: HostRuntime) -> Result<(), Fail> {
    let alloc = rt.alloc();
    let mut publisher = Publisher::open(alloc, CONFIGURATION.as_bytes())?;
    let mut subscriber = Subscriber::open(alloc, CONFIGURATION.as_bytes())?;
    let first = turn(alloc, &mut publisher, 1)?;
    assert!(rt; comes(&mut subscriber, first, 1) == Ok(1));
    let _lost = turn(alloc, &mut publisher, 2)?;
    let delta = turn(alloc, &mut publisher, 3)?;
    assert!(rt; comes(&mut subscriber, delta, 3) == Err(NoValue::NoRow));
    assert!(rt; waits_for(&subscriber) == Some(Why::Gap));
    let key = turn(alloc, &mut publisher, 4)?;
    assert!(rt; comes(&mut subscriber, key, 4) == Ok(4));
    Ok(())
}

/// The field is set to the number of the turn. The answer is the turn's datagram, which is handed over.
fn turn(alloc: Global, publisher: &mut Publisher, number: u32) -> Result<Vec<u8>, Fail>
    requires { IsPublisher publisher.old }
    ensures { IsPublisher publisher.new }
{
    if !publisher.set(0, 0, &Value::UInt32(number), 0) {
        return Err("the number doesn't fit".into());
    }
    let now = u64::from(number).saturating_mul(100);
    if !matches!(publisher.come_to(now), Next::Datagram) {
        return Err("there is no datagram".into());
    }
    let bytes = Vec::from_slice(alloc, publisher.datagram())?;
    publisher.hand_over();
    Ok(bytes)
}

/// The datagram comes at the moment of this turn. The answer is the field as the reader holds it.
fn comes(subscriber: &mut Subscriber, mut bytes: Vec<u8>, number: u32) -> Result<u64, NoValue>
    requires { IsSubscriber subscriber.old }
    ensures { IsSubscriber subscriber.new }
{
    let now = u64::from(number).saturating_mul(100);
    let _ = subscriber.datagram(0, now, &mut bytes);
    subscriber.word(0, 0, 0, Kind::UInt32)
}

/// Why the reader holds no row.
fn waits_for(subscriber: &Subscriber) -> Option<Why>
    requires { IsSubscriber subscriber.now }
{
    match subscriber.reader(0, 0) {
        Some(reader) => Some(reader.why()),
        None => None,
    }
}
