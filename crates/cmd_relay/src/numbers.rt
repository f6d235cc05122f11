//! What its types say of a gateway, by functions that walk through it.
ghost use Rattle.std.specs.Prelude.{◌<◌, ℕ, List, All, IfSome, length};
ghost use Rattle.dataset_meta.specs.declared.field.Field.{Field};
ghost use Rattle.dataset_meta.specs.Metas.{MetaData};
ghost use Rattle.dataset_meta.specs.Rows.{IsRow};
ghost use Rattle.dataset_reader.specs.Reader.{IsReaderOf, kept_by};
ghost use Rattle.ps_config.specs.declared.parts.Config.{Config as ConfigValue};
ghost use Rattle.report_laws.specs.Numbers.{IsNumber};
ghost use Rattle.reader_group.specs.Settings.{group_at as read_group_at};
ghost use Rattle.writer_group.specs.Parts.{group_at};
ghost use Rattle.writer_group.specs.Payloads.{writer_at};
ghost use Rattle.gateway_core.specs.Holding.{IsGateway, KeepsAll};
ghost use Rattle.gateway_core.specs.Lived.{GatewayStep};
ghost use Rattle.gateway_core.specs.Standing.{Stands};
ghost use Rattle.cmd_relay.specs.Texts.{IsGatewayOf, config_of, kept_of, steps_of};
ghost use Rattle.cmd_relay.specs.Numbers.{GatewayHasNumbers};
ghost use Rattle.cmd_relay.specs.Seen.{HasVersion, LogIsSeen, ReaderIsSeen};

use dataset_reader::Reader;
use gateway_core::Gateway;
use ps_config::Config;
use report_laws::logs_have_numbers;

/// What is printed of a gateway whose logs have each data frame are numbers of 64 bits, and rows of its readers' data sets.
pub fn gateways_have_numbers(second: &Config, gateway: &Gateway<'_>)
    requires { IsGatewayOf second.now gateway.now }
    ensures { (lived : List GatewayStep) → Stands second.now lived gateway.now
        → GatewayHasNumbers second.now (steps_of gateway.now lived) (kept_of gateway.now lived) }
{
    see_groups(second, gateway);
    see_read_groups(second, gateway);
}

fn see_groups(second: &Config, gateway: &Gateway<'_>)
    requires { IsGatewayOf second.now gateway.now }
    ensures { (lived : List GatewayStep) → Stands second.now lived gateway.now → (g w : ℕ)
        → g < length second.now.group → w < length (group_at second.now g).writer
        → LogIsSeen second.now (steps_of gateway.now lived)
        (kept_of gateway.now lived (writer_at (group_at second.now g) w).dataset) g w }
{
    for g in 0..second.group.as_slice().len() {
        see_group(second, gateway, g);
    }
}

fn see_group(second: &Config, gateway: &Gateway<'_>, g: usize)
    requires gateway { IsGatewayOf second.now gateway.now }
    requires within { g < length second.now.group }
    ensures { (lived : List GatewayStep) → Stands second.now lived gateway.now → (w : ℕ)
        → w < length (group_at second.now g).writer
        → LogIsSeen second.now (steps_of gateway.now lived)
        (kept_of gateway.now lived (writer_at (group_at second.now g) w).dataset) g w }
{
    let groups = second.group.as_slice();
    let writers = groups[g].writer.as_slice();
    for w in 0..writers.len() {
        see_writer(gateway, g as u8, w as u8, writers[w].dataset);
    }
}

/// The log of a writer, and what is told of the stores in it, by the data set with this index.
fn see_writer(gateway: &Gateway<'_>, g: u8, w: u8, set: u8)
    requires gateway { IsGateway gateway.now }
    requires keeps { KeepsAll gateway.now }
    requires group { g < length (config_of gateway.now).group }
    requires writer { w < length (group_at (config_of gateway.now) g).writer }
    requires set { set < length (config_of gateway.now).dataset }
    ensures { (second : ConfigValue) (lived : List GatewayStep) → Stands second lived gateway.now
        → LogIsSeen second (steps_of gateway.now lived) (kept_of gateway.now lived set) g w }
{
    let log = gateway.writer(g, w).log();
    logs_have_numbers(log);
    see_versions(gateway, set, log);
}

fn see_versions(gateway: &Gateway<'_>, set: u8, log: &[(u64, u64)])
    requires gateway { IsGateway gateway.now }
    requires keeps { KeepsAll gateway.now }
    requires set { set < length (config_of gateway.now).dataset }
    ensures { (second : ConfigValue) (lived : List GatewayStep) → Stands second lived gateway.now
        → All (HasVersion (kept_of gateway.now lived set)) log.now }
{
    for entry in log {
        see_version(gateway.version_of(set, entry.1));
    }
}

fn see_version(version: Option<u64>)
    ensures { IfSome version IsNumber }
{
    if let Some(version) = version {
        see_long(version);
    }
}

fn see_read_groups(second: &Config, gateway: &Gateway<'_>)
    requires { IsGatewayOf second.now gateway.now }
    ensures { (lived : List GatewayStep) → Stands second.now lived gateway.now → (r i : ℕ)
        → r < length second.now.readgroup → i < length (read_group_at second.now r).reader
        → ReaderIsSeen second.now (steps_of gateway.now lived) r i }
{
    for r in 0..second.readgroup.as_slice().len() {
        see_read_group(second, gateway, r);
    }
}

fn see_read_group(second: &Config, gateway: &Gateway<'_>, r: usize)
    requires gateway { IsGatewayOf second.now gateway.now }
    requires within { r < length second.now.readgroup }
    ensures { (lived : List GatewayStep) → Stands second.now lived gateway.now → (i : ℕ)
        → i < length (read_group_at second.now r).reader
        → ReaderIsSeen second.now (steps_of gateway.now lived) r i }
{
    let groups = second.readgroup.as_slice();
    let readers = groups[r].reader.as_slice();
    for i in 0..readers.len() {
        see_reader(gateway.reader(r as u8, i as u8));
    }
}

/// The number and the row of a reader.
fn see_reader(reader: &Reader)
    ensures number { (fields : List Field) → IfSome (kept_by fields reader.now).number IsNumber }
    ensures row { (meta : MetaData) → IsReaderOf meta reader.now
        → IfSome (kept_by meta.fields reader.now).row (IsRow meta) }
{
    see_number(reader.number());
    let _row = reader.row();
}

fn see_number(number: Option<u16>)
    ensures { IfSome number IsNumber }
{
    if let Some(number) = number {
        see_short(number);
    }
}

fn see_long(number: u64)
    ensures { IsNumber number }
{}

fn see_short(number: u16)
    ensures { IsNumber number }
{}
