//! What a run that inserts lines writes.
ghost use Rattle.std.specs.Prelude.{◌≡◌, ◌≢◌, ◌≤◌, All, OnErr, OnOk, count_by, false, length, true};
ghost use Rattle.std.specs.Io.KnownBytes.{Appends};
ghost use Rattle.tdb_base.specs.Causes.{HasCause, Rose};
ghost use Rattle.tdb_base.specs.History.{History};
ghost use Rattle.tdb_base.specs.Replies.{is_new};
ghost use Rattle.trace_csv.specs.OneReport.{HasWordId};
ghost use Rattle.trace_csv.specs.Output.{TakesFront};
ghost use Rattle.trace_csv.specs.Report.{summary_of, summary_text};
ghost use Rattle.treedb.specs.Chosen.{is_check};
ghost use Rattle.treedb.specs.Lines.{form_of};
ghost use Rattle.treedb.specs.ReadBack.{AreThere, AreVectorsOf, IfPrinted, IsReadBack, listed};
ghost use Rattle.treedb.specs.Sharing.{HasOneEach, IsTreated, report_of, treated};
ghost use Rattle.treedb.specs.Writing.{WritesAnswered, WritesText, ended_with};

use crate::distinct::ReadBack;
use crate::ended::Ended;
use crate::fill::Answered;
use crate::input::form_of;
use crate::insertion::{Beside, LineReplies};
use crate::stats::summary;
use command_line::{Choice, Job};
use tdb_base::{Reply, Sink};
use trace_csv::{
    Form, Stats, Summary, WriteFault, write_drawn, write_marks, write_report, write_signed,
    write_summary, write_vectors,
};

// How a run ends whose text was written.
fn ended(replies: &[Reply]) -> Ended
    ensures { result ≡ ended_with replies.now }
{
    let full = replies.iter().filter(|reply| reply.is_full()).count() as u64;
    if full > 0 {
        return Ended::Full(full);
    }
    Ended::Done
}

// Writes the report of all replies, with who drew each line or how it was marked, where that is told.
fn write_lines<K: Sink>(
    inserted: &LineReplies,
    summary: &Summary,
    sink: &mut K,
) -> Result<(), WriteFault>
    requires lines { summary.now.lines ≡ length inserted.now.replies.items }
    requires distinct { summary.now.distinct ≡ count_by is_new inserted.now.replies.items }
    requires beside { HasOneEach (treated inserted.now) inserted.now.replies.items }
    ensures ok { OnOk result (Appends (K.taken sink.old) (K.taken sink.new)
        (report_of (treated inserted.now) inserted.now.replies.items summary.now)) }
    ensures fit { OnOk result (All HasWordId inserted.now.replies.items) }
    ensures settled { OnOk result (K.settled sink.new ≡ true) }
    ensures front { OnErr result (TakesFront (K.taken sink.old) (K.taken sink.new)
        (report_of (treated inserted.now) inserted.now.replies.items summary.now)) }
    ensures cause { HasCause (K.faults sink.old) (K.faults sink.new) result }
{
    match &inserted.beside {
        Beside::Nothing => write_report(&inserted.replies, summary, sink),
        Beside::Drawers(drawn) => write_drawn(&inserted.replies, drawn, summary, sink),
        Beside::Marks(firsts) => write_marks(&inserted.replies, firsts, summary, sink),
    }
}

// Writes this report. The sink is finished then.
//
// `WriteFault` comes only where the sink's count of faults rose, and leaves a front of the text.
fn write_replies<K: Sink>(inserted: &LineReplies, stats: Option<Stats>, sink: &mut K) -> Ended
    requires beside { HasOneEach (treated inserted.now) inserted.now.replies.items }
    ensures written { WritesText (report_of (treated inserted.now) inserted.now.replies.items
        (summary_of inserted.now.replies.items stats)) inserted.now.replies.items
        (K.taken sink.old) (K.taken sink.new) result }
    ensures fit { result ≢ Ended.WriteFault → All HasWordId inserted.now.replies.items }
    ensures settled { result ≢ Ended.WriteFault → K.settled sink.new ≡ true }
    ensures fault { result ≡ Ended.WriteFault → Rose (K.faults sink.old) (K.faults sink.new) }
{
    let summary = summary(&inserted.replies, stats);
    match write_lines(inserted, &summary, sink) {
        Ok(()) => ended(&inserted.replies),
        Err(WriteFault) => Ended::WriteFault,
    }
}

// Writes the summary of some replies alone. The sink is finished then.
//
// `WriteFault` comes only where the sink's count of faults rose, and leaves a front of the text.
fn write_counts<K: Sink>(replies: &[Reply], stats: Option<Stats>, sink: &mut K) -> Ended
    ensures written { WritesText (summary_text (summary_of replies.now stats)) replies.now
        (K.taken sink.old) (K.taken sink.new) result }
    ensures settled { result ≢ Ended.WriteFault → K.settled sink.new ≡ true }
    ensures fault { result ≡ Ended.WriteFault → Rose (K.faults sink.old) (K.faults sink.new) }
{
    match write_summary(&summary(replies, stats), sink) {
        Ok(()) => ended(replies),
        Err(WriteFault) => Ended::WriteFault,
    }
}

// Writes the vectors that were read back, a line for each, in a form. The sink is finished then.
//
// `WriteFault` comes only where the sink's count of faults rose, and leaves a front of the text.
fn write_listing<K: Sink>(form: Form, read: &ReadBack, sink: &mut K) -> Result<(), WriteFault>
    requires there { AreThere read.now }
    requires numbers { AreVectorsOf form read.now }
    ensures ok { OnOk result (Appends (K.taken sink.old) (K.taken sink.new) (listed form read.now)) }
    ensures settled { OnOk result (K.settled sink.new ≡ true) }
    ensures front { OnErr result (TakesFront (K.taken sink.old) (K.taken sink.new) (listed form read.now)) }
    ensures cause { HasCause (K.faults sink.old) (K.faults sink.new) result }
{
    match form {
        Form::Unsigned(_) => write_vectors(read.slots, &read.flat, &read.order, sink),
        Form::Signed => write_signed(read.slots, &read.flat, &read.order, sink),
    }
}

// Writes the vectors that were read back, and how the run ends.
fn write_distinct<K: Sink>(form: Form, read: &ReadBack, replies: &[Reply], sink: &mut K) -> Ended
    requires there { AreThere read.now }
    requires numbers { AreVectorsOf form read.now }
    ensures written { WritesText (listed form read.now) replies.now (K.taken sink.old)
        (K.taken sink.new) result }
    ensures settled { result ≢ Ended.WriteFault → K.settled sink.new ≡ true }
    ensures fault { result ≡ Ended.WriteFault → Rose (K.faults sink.old) (K.faults sink.new) }
{
    match write_listing(form, read, sink) {
        Ok(()) => ended(replies),
        Err(WriteFault) => Ended::WriteFault,
    }
}

/// Writes the text of a job that inserts lines: the report of all replies, the vectors that were answered
/// new, or the summary alone. The sink is finished then.
///
/// `WriteFault` comes only where the sink's count of faults rose, and leaves a front of the text.
pub fn write_answered<K: Sink>(choice: &Choice, answered: &Answered, sink: &mut K) -> Ended
    requires inserts { is_check choice.now.job ≡ false }
    requires workers { choice.now.workers ≤ 64 }
    requires shared { IsTreated choice.now (length answered.now.inserted.replies.items)
        answered.now.inserted.replies.items (treated answered.now.inserted) }
    requires read { (h : History) × IfPrinted choice.now.job answered.now.vectors
        (IsReadBack (form_of choice.now) h) }
    requires numbers { IfPrinted choice.now.job answered.now.vectors (AreVectorsOf (form_of choice.now)) }
    ensures { (h : History) → IfPrinted choice.now.job answered.now.vectors (IsReadBack (form_of choice.now) h)
        → WritesAnswered choice.now answered.now h
        (record { taken = K.taken; faults = K.faults; settled = K.settled; old = sink.old; new = sink.new })
        result }
{
    match choice.job {
        Job::Insert | Job::Mark => write_replies(&answered.inserted, answered.stats, sink),
        Job::Distinct => match &answered.vectors {
            Some(vectors) => {
                write_distinct(form_of(choice), vectors, &answered.inserted.replies, sink)
            }
            None => unreachable!(),
        },
        Job::Bench => write_counts(&answered.inserted.replies, answered.stats, sink),
        Job::Check => unreachable!(),
    }
}
