//! The ends of the parts of a session.
ghost use Rattle.std.specs.Prelude.{◌≡◌, ◌<◌, ◌++◌, ◌+◌, ℕ, List, None, IfOk, IfSome, OnOk, length, map, option_map, option_and_then, reverse, slice_index_or};
ghost use Rattle.std.specs.List.{AllZip};
ghost use Rattle.ua_base.specs.Journal.{Entry};
ghost use Rattle.dataset_meta.specs.declared.field.Field.{Field};
ghost use Rattle.dataset_meta.specs.Metas.{MetaData};
ghost use Rattle.row_words.specs.Belonging.{Belongs, row_in};
ghost use Rattle.pubsub_model.specs.Answers.{version_of};
ghost use Rattle.dataset_reader.specs.Reader.{IsReaderOf, kept_by};
ghost use Rattle.reader_group.specs.Members.{MemberValue};
ghost use Rattle.pubsub_states.specs.Components.{IsAmong};
ghost use Rattle.pubsub_states.specs.Changes.{flags_in};
ghost use Rattle.pubsub_states.specs.States.{state_of};
ghost use Rattle.pubsub_states.specs.declared.component.Component.TheVariants.{Writer as WriterOf};
ghost use Rattle.session_model.specs.Steps.{Plan, Step};
ghost use Rattle.session_model.specs.Deeds.{group_indexes};
ghost use Rattle.session_model.specs.Events.{read_group_indexes};
ghost use Rattle.session_model.specs.Closing.{MemberPlace, Shows, reader_places, writer_places};
ghost use Rattle.session_model.specs.Lives.{Account};
ghost use Rattle.writer_group.specs.Parts.{group_at};
ghost use Rattle.pubsub_engine.specs.Storing.{first_reader};
ghost use Rattle.pubsub_engine.specs.Logs.{log_after, logs_told};
ghost use Rattle.pubsub_engine.specs.LifeEnds.{IsToldBy, IsWriterEndBy, group_end_by, read_group_end_by};
ghost use Rattle.pubsub_engine.specs.Ending.{HavePublished, HaveReceived, MayTellReaders, MayTellWriters, places_of_group, places_of_read_group};

use crate::logs::{log_read, version_at};
use arrayvec::ArrayVec;
use dataset_reader::Reader;
use ps_config::{Config, Parts};
use ps_report::{GroupEnd, HeldEnd, ReadGroupEnd, ReaderEnd, WriterEnd};
use pubsub_model::Break;
use pubsub_states::{Component, State, Tree};
use session_parts::{Publisher, Subscriber, group_part, read_group_part};
use std::alloc::Global;
use ua_base::NoMemory;

/// The ends of the groups, in order.
pub(crate) fn group_ends(
    alloc: Global,
    config: &Config,
    tree: &Tree,
    publisher: &Publisher,
) -> Result<Vec<GroupEnd>, NoMemory>
    requires { MayTellWriters config.now tree.now publisher.now }
    ensures { IfOk result (λ ends. (most : ℕ) (p : Plan) (steps : List Step) (a : Account)
        → HavePublished config.now most p steps a tree.now publisher.now
        → ends.items ≡ map (group_end_by p steps a) (group_indexes p.config)) }
{
    let mut ends = Vec::new(alloc);
    for g in 0..config.group.as_slice().len() {
        ends.push(GroupEnd {
            state: tree.state_of(Component::Group { group: g as u8 }),
            sent: publisher.sends[g].done,
        })?;
    }
    Ok(ends)
}

/// The ends of the writers, over all groups in order.
pub(crate) fn writer_ends(
    alloc: Global,
    config: &Config,
    tree: &Tree,
    publisher: &Publisher,
) -> Result<Vec<WriterEnd>, NoMemory>
    requires { MayTellWriters config.now tree.now publisher.now }
    ensures { IfOk result (λ ends. (most : ℕ) (p : Plan) (steps : List Step) (a : Account)
        → HavePublished config.now most p steps a tree.now publisher.now
        → AllZip (IsWriterEndBy (log_after most p.config a.deeds) p steps a)
        (writer_places p.config) ends.items) }
{
    let mut ends = Vec::new(alloc);
    for g in 0..config.group.as_slice().len() {
        push_writer_ends(alloc, &mut ends, config, tree, publisher, g as u8)?;
    }
    Ok(ends)
}

/// After other ends those of the writers of a group.
fn push_writer_ends(
    alloc: Global,
    ends: &mut Vec<WriterEnd>,
    config: &Config,
    tree: &Tree,
    publisher: &Publisher,
    group: u8,
) -> Result<(), NoMemory>
    requires may { MayTellWriters config.now tree.now publisher.now }
    requires within { group < length config.now.group }
    ensures { OnOk result ((most : ℕ) (p : Plan) (steps : List Step) (a : Account)
        (places : List MemberPlace) → HavePublished config.now most p steps a tree.now publisher.now
        → let is_end = IsWriterEndBy (log_after most p.config a.deeds) p steps a in
        AllZip is_end places ends.old.items
        → AllZip is_end (places ++ places_of_group p.config group) ends.new.items) }
{
    for w in 0
        ..group_part(config, usize::from(group))
            .writer
            .as_slice()
            .len()
    {
        ends.push(writer_end(alloc, config, tree, publisher, group, w as u8)?)?;
    }
    Ok(())
}

fn writer_end(
    alloc: Global,
    config: &Config,
    tree: &Tree,
    publisher: &Publisher,
    group: u8,
    writer: u8,
) -> Result<WriterEnd, NoMemory>
    requires may { MayTellWriters config.now tree.now publisher.now }
    requires within { group < length config.now.group }
    requires there { writer < length (group_at config.now group).writer }
    ensures { IfOk result (λ end. (most : ℕ) (p : Plan) (steps : List Step) (a : Account)
        → HavePublished config.now most p steps a tree.now publisher.now
        → IsWriterEndBy (log_after most p.config a.deeds) p steps a (group, writer) end) }
{
    let log = publisher.groups[usize::from(group)].writer(writer).log();
    Ok(WriterEnd {
        state: tree.state_of(Component::Writer { group, writer }),
        log: Parts::new(copied(alloc, log)?),
    })
}

fn copied(alloc: Global, log: &[(u64, u64)]) -> Result<Vec<(u64, u64)>, NoMemory>
    ensures { IfOk result (λ copy. copy.items ≡ log.now) }
{
    Ok(log.to_vec(alloc)?)
}

/// The ends of the read groups, in order.
pub(crate) fn read_group_ends(
    alloc: Global,
    config: &Config,
    tree: &Tree,
    subscriber: &Subscriber,
) -> Result<Vec<ReadGroupEnd>, NoMemory>
    requires { MayTellReaders config.now tree.now subscriber.now }
    ensures { IfOk result (λ ends. (p : Plan) (steps : List Step) (a : Account)
        → HaveReceived config.now p steps a tree.now subscriber.now
        → ends.items ≡ map (read_group_end_by p steps a) (read_group_indexes p.config)) }
{
    let mut ends = Vec::new(alloc);
    for r in 0..config.readgroup.as_slice().len() {
        let tally = &subscriber.tallies[r];
        ends.push(ReadGroupEnd {
            state: tree.state_of(Component::ReadGroup {
                read_group: r as u8,
            }),
            taken: tally.taken,
            causes: tally.causes,
        })?;
    }
    Ok(ends)
}

/// The ends of the readers, over all read groups in order, with versions or without.
pub(crate) fn reader_ends(
    alloc: Global,
    config: &Config,
    tree: &Tree,
    publisher: &Publisher,
    subscriber: &Subscriber,
    versions: bool,
) -> Result<Vec<ReaderEnd>, NoMemory>
    requires writers { MayTellWriters config.now tree.now publisher.now }
    requires readers { MayTellReaders config.now tree.now subscriber.now }
    ensures { IfOk result (λ ends. (most : ℕ) (p : Plan) (steps : List Step) (a : Account)
        → HavePublished config.now most p steps a tree.now publisher.now
        → HaveReceived config.now p steps a tree.now subscriber.now
        → let logs = logs_told versions (log_after most p.config a.deeds) in
        AllZip (IsToldBy logs p steps a) (reader_places p.config) ends.items) }
{
    let mut ends = Vec::new(alloc);
    for r in 0..config.readgroup.as_slice().len() {
        push_reader_ends(
            &mut ends, config, tree, publisher, subscriber, r as u8, versions,
        )?;
    }
    Ok(ends)
}

/// After the ends of the readers of the read groups before it those of a read group.
fn push_reader_ends(
    ends: &mut Vec<ReaderEnd>,
    config: &Config,
    tree: &Tree,
    publisher: &Publisher,
    subscriber: &Subscriber,
    read_group: u8,
    versions: bool,
) -> Result<(), NoMemory>
    requires writers { MayTellWriters config.now tree.now publisher.now }
    requires readers { MayTellReaders config.now tree.now subscriber.now }
    requires within { read_group < length config.now.readgroup }
    requires behind { length ends.old.items ≡ first_reader config.now read_group }
    ensures behind { OnOk result
        (length ends.new.items ≡ first_reader config.now (read_group + 1)) }
    ensures more { OnOk result ((most : ℕ) (p : Plan) (steps : List Step) (a : Account)
        (places : List MemberPlace) → HavePublished config.now most p steps a tree.now publisher.now
        → HaveReceived config.now p steps a tree.now subscriber.now
        → let is_told = IsToldBy (logs_told versions (log_after most p.config a.deeds)) p steps a in
        AllZip is_told places ends.old.items
        → AllZip is_told (places ++ places_of_read_group p.config read_group) ends.new.items) }
{
    let r = usize::from(read_group);
    for i in 0..read_group_part(config, r).reader.as_slice().len() {
        let reader = i as u8;
        let state = tree.state_of(Component::Reader { read_group, reader });
        let log = log_read(config, publisher, ends.len(), versions);
        ends.push(reader_end(state, subscriber.groups[r].reader(reader), log))?;
    }
    Ok(())
}

fn reader_end(state: State, reader: &Reader, log: &[(u64, u64)]) -> ReaderEnd
    ensures state { result.state ≡ state }
    ensures shows { (meta : MetaData) (member : MemberValue) → IsReaderOf meta reader.now
        → kept_by meta.fields reader.now ≡ member.kept → Shows meta member result }
    ensures version { IfSome result.held
        (λ held. held.version ≡ option_and_then (version_of log.now) held.number) }
{
    ReaderEnd {
        state,
        held: held_end(reader, log),
        why: reader.why(),
        breaks: reader.breaks(),
        recent: recent_breaks(reader),
    }
}

/// What a reader holds, if anything.
fn held_end(reader: &Reader, log: &[(u64, u64)]) -> Option<HeldEnd>
    ensures row { (fields : List Field) → option_map (λ held. row_in fields held.row.words) result
        ≡ (kept_by fields reader.now).row }
    ensures number { (fields : List Field)
        → IfSome result (λ held. held.number ≡ (kept_by fields reader.now).number) }
    ensures belongs { (meta : MetaData) → IsReaderOf meta reader.now
        → IfSome result (λ held. Belongs meta held.row.words) }
    ensures version { IfSome result
        (λ held. held.version ≡ option_and_then (version_of log.now) held.number) }
{
    let Some(row) = reader.row() else {
        return None;
    };
    let number = reader.number();
    Some(HeldEnd {
        number,
        version: version_at(log, number),
        row: *row,
    })
}

/// The last eight breaks, the oldest first.
fn recent_breaks(reader: &Reader) -> ArrayVec<Break, 8>
    ensures { (fields : List Field) → result.items ≡ reverse (kept_by fields reader.now).recent }
{
    let mut recent = ArrayVec::new();
    match recent.try_extend_from_slice(reader.recent()) {
        Ok(()) => recent,
        Err(_) => unreachable!(),
    }
}
