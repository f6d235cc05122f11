//! Readers.
ghost use Rattle.std.specs.Prelude.{◌≡◌, [], ◌≤◌, List, Some, IfSome, option_map, reverse, length, ◌∷◌};
ghost use Rattle.dataset_meta.specs.declared.field.Field.{Field};
ghost use Rattle.dataset_meta.specs.Metas.{MetaData};
ghost use Rattle.row_words.specs.Belonging.{Belongs, row_in};
ghost use Rattle.frame_codec.specs.Words.{IsFrameOf};
ghost use Rattle.pubsub_model.specs.Records.{Arrival, Item, Cut};
ghost use Rattle.dataset_reader.specs.Kept.{fresh, cut_kept};
ghost use Rattle.dataset_reader.specs.Passed.{counted, none_passed};

use crate::passed::Passed;
use crate::progress::Progress;
use crate::took::{Numbering, Took};
use dataset_meta::Meta;
use frame_codec::Frame;
use pubsub_model::{Break, Why};
use row_words::Row;

/// A reader of the messages of one data set (OPC 10000-14 6.2.9, DataSetReader). It holds the row of the last key frame with the
/// changes of all delta frames since, where none is missing. With `Numbering::Unnumbered` delta frames are refused, and it holds
/// the row of the last key frame.
#[derive(Drop)]
pub struct Reader {
    numbering: Numbering,
    state: Progress,
    passed: Passed,
}

impl Reader {
    ghost use Rattle.dataset_reader.specs.Reader.{numbering_of, kept_by, after_frame, IsReaderOf, IsNext, HasRecords, came_on_to, passed_of};

    /// A reader that waits for its first key frame.
    pub fn new(numbering: Numbering) -> Reader
        ensures numbering { numbering_of result ≡ numbering }
        ensures records { (meta : MetaData) → HasRecords meta [] result }
        ensures fresh { (fields : List Field) → kept_by fields result ≡ fresh }
        ensures reader { (meta : MetaData) → IsReaderOf meta result }
        ensures passed { passed_of result ≡ none_passed }
    {
        Reader {
            numbering,
            state: Progress::new(),
            passed: Passed::default(),
        }
    }

    /// Takes a frame. The stamp is the number in the message's nonce, where the message was secured.
    pub fn frame(&mut self, meta: &Meta, frame: &Frame, stamp: Option<u32>) -> Took
        requires frame { IsFrameOf meta.now frame.now }
        requires reader { IsReaderOf meta.now self.old }
        ensures records { (arrivals : List Arrival) (item : Item)
            → IsNext meta.now self.old arrivals item frame.now stamp
            → HasRecords meta.now arrivals self.old
            → HasRecords meta.now (came_on_to self.old arrivals item) self.new }
        ensures kept { kept_by meta.now.fields self.new
            ≡ (after_frame meta.now self.old frame.now stamp).0 }
        ensures took { result ≡ (after_frame meta.now self.old frame.now stamp).1 }
        ensures reader { IsReaderOf meta.now self.new }
        ensures numbering { numbering_of self.new ≡ numbering_of self.old }
        ensures passed { passed_of self.new ≡ counted (passed_of self.old) result.outcome }
    {
        let took = self.state.take(self.numbering, meta, frame, stamp);
        self.passed.count(took.outcome);
        took
    }

    /// Forgets where the run of messages was, and the row. The breaks stay counted, and so does what was passed over.
    pub fn cut(&mut self, why: Why)
        ensures records { (meta : MetaData) (arrivals : List Arrival)
            → HasRecords meta arrivals self.old
            → HasRecords meta (Cut why ∷ arrivals) self.new }
        ensures kept { (fields : List Field) → kept_by fields self.new
            ≡ cut_kept why (kept_by fields self.old) }
        ensures reader { (meta : MetaData) → IsReaderOf meta self.new }
        ensures numbering { numbering_of self.new ≡ numbering_of self.old }
        ensures passed { passed_of self.new ≡ passed_of self.old }
    {
        self.state.cut(why);
    }

    /// The row that is held.
    pub fn row(&self) -> Option<&Row>
        ensures row { (fields : List Field) → option_map (λ row. row_in fields row.now.words) result
            ≡ (kept_by fields self.now).row }
        ensures belongs { (meta : MetaData) → IsReaderOf meta self.now
            → IfSome result (λ row. Belongs meta row.now.words) }
    {
        self.state.row()
    }

    /// The number of the message that the held row was last made of, where the reader goes by numbers.
    pub fn number(&self) -> Option<u16>
        ensures { (fields : List Field) → result ≡ (kept_by fields self.now).number }
    {
        self.state.number
    }

    /// Why no row is held. While one is held, why none was held before it.
    pub fn why(&self) -> Why
        ensures { (fields : List Field) → result ≡ (kept_by fields self.now).why }
    {
        self.state.why
    }

    /// How often the run of messages broke since the reader was made, over all cuts. The count stands at 2^64 - 1.
    pub fn breaks(&self) -> u64
        ensures { (fields : List Field) → result ≡ (kept_by fields self.now).breaks }
    {
        self.state.breaks
    }

    /// The last eight breaks, the oldest first.
    pub fn recent(&self) -> &[Break]
        ensures recent { (fields : List Field)
            → reverse result.now ≡ (kept_by fields self.now).recent }
        ensures few { length result.now ≤ 8 }
    {
        self.state.recent.as_slice()
    }

    /// How many frames were passed over since the reader was made, over all cuts: by their causes in the answers of `frame`.
    pub fn passed(&self) -> Passed
        ensures { result ≡ passed_of self.now }
    {
        self.passed
    }
}
