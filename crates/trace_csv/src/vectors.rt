//! The text of vectors: a line each.
ghost use Rattle.std.specs.Prelude.{◌≡◌, ◌+◌, ◌*◌, ◌/◌, ◌%◌, ◌<◌, ◌≤◌, ◌++◌, [], All, length, true, OnOk, OnErr};
ghost use Rattle.std.specs.Prelude.{slice_index_or};
ghost use Rattle.std.specs.Io.KnownBytes.{Appends};
ghost use Rattle.tdb_base.specs.Causes.{HasCause};
ghost use Rattle.trace_csv.specs.Output.{TakesFront};
ghost use Rattle.trace_csv.specs.Page.{Carries, HasRoom};
ghost use Rattle.trace_csv.specs.Vectors.{AreSlots, form_line, form_text, signed_text, signed_vectors_of};
ghost use Rattle.trace_csv.specs.Vectors.{texts, vectors_of, vectors_text};
ghost use Rattle.trace_csv.specs.Words.{fields_in};

use crate::Form;
use crate::output::WriteFault;
use crate::page::{Page, close, make_room};
use tdb_base::Sink;

/// A line for each vector that `order` names, its numbers joined by commas; after that the sink has finished.
///
/// The vectors stand one after the other in `flat`, `slots` numbers each, and are named by their numbers from
/// 0. `WriteFault` comes only where the sink's count of faults rose, and the sink then took a prefix of the
/// text.
pub fn write_vectors<K: Sink>(
    slots: usize,
    flat: &[u32],
    order: &[u32],
    sink: &mut K,
) -> Result<(), WriteFault>
    requires slots { 2 ≤ slots }
    requires there { All (λ number. (number + 1) * slots ≤ length flat.now) order.now }
    ensures ok { OnOk result
        (Appends (K.taken sink.old) (K.taken sink.new) (vectors_text (vectors_of slots flat.now order.now))) }
    ensures settled { OnOk result (K.settled sink.new ≡ true) }
    ensures front { OnErr result
        (TakesFront (K.taken sink.old) (K.taken sink.new)
        (vectors_text (vectors_of slots flat.now order.now))) }
    ensures cause { HasCause (K.faults sink.old) (K.faults sink.new) result }
{
    write_form(Form::Unsigned(32), slots, flat, order, sink)
}

/// A line for each signed vector that `order` names, its numbers joined by commas, with `-` before the digits
/// of a negative one; after that the sink has finished.
///
/// The halves of the vectors stand one after the other in `flat`, `slots` of them a vector, two for each
/// number, of 16 bits each where a vector is named. Else it is as `write_vectors`.
pub fn write_signed<K: Sink>(
    slots: usize,
    flat: &[u32],
    order: &[u32],
    sink: &mut K,
) -> Result<(), WriteFault>
    requires slots { 4 ≤ slots }
    requires even { slots % 2 ≡ 0 }
    requires halves { All (AreSlots Form.Signed) (vectors_of slots flat.now order.now) }
    requires there { All (λ number. (number + 1) * slots ≤ length flat.now) order.now }
    ensures ok { OnOk result
        (Appends (K.taken sink.old) (K.taken sink.new)
        (signed_text (signed_vectors_of slots flat.now order.now))) }
    ensures settled { OnOk result (K.settled sink.new ≡ true) }
    ensures front { OnErr result
        (TakesFront (K.taken sink.old) (K.taken sink.new)
        (signed_text (signed_vectors_of slots flat.now order.now))) }
    ensures cause { HasCause (K.faults sink.old) (K.faults sink.new) result }
{
    write_form(Form::Signed, slots, flat, order, sink)
}

// A line for each vector that `order` names, with the numbers that its slots keep.
fn write_form<K: Sink>(
    form: Form,
    slots: usize,
    flat: &[u32],
    order: &[u32],
    sink: &mut K,
) -> Result<(), WriteFault>
    requires slots { 2 ≤ slots }
    requires halves { All (AreSlots form) (vectors_of slots flat.now order.now) }
    requires there { All (λ number. (number + 1) * slots ≤ length flat.now) order.now }
    ensures ok { OnOk result
        (Appends (K.taken sink.old) (K.taken sink.new) (form_text form (vectors_of slots flat.now order.now))) }
    ensures settled { OnOk result (K.settled sink.new ≡ true) }
    ensures front { OnErr result
        (TakesFront (K.taken sink.old) (K.taken sink.new)
        (form_text form (vectors_of slots flat.now order.now))) }
    ensures cause { HasCause (K.faults sink.old) (K.faults sink.new) result }
{
    let mut page = Page::new();
    for number in order {
        let (_, rest) = flat.split_at(*number as usize * slots);
        let (vector, _) = rest.split_at(slots);
        add_vector(form, vector, &mut page, sink)?;
    }
    close(&page, sink)?;
    Ok(())
}

// Adds the line of a vector to a text.
fn add_vector<K: Sink>(
    form: Form,
    vector: &[u32],
    page: &mut Page,
    sink: &mut K,
) -> Result<(), WriteFault>
    requires some { 2 ≤ length vector.now }
    requires halves { AreSlots form vector.now }
    ensures ok { OnOk result
        (Carries (K.taken sink.old) (K.taken sink.new) page.old page.new (form_line form vector.now)) }
    ensures front { OnErr result
        (TakesFront (K.taken sink.old) (K.taken sink.new) (page.old ++ form_line form vector.now)) }
    ensures cause { HasCause (K.faults sink.old) (K.faults sink.new) result }
{
    make_room(page, sink)?;
    add_field(form, vector, 0, page);
    for i in 1..form.fields(vector.len()) {
        make_room(page, sink)?;
        page.add(b",");
        add_field(form, vector, i, page);
    }
    page.add(b"\n");
    Ok(())
}

// Adds the text of the number of this place among those that a vector's slots keep.
#[inline(always)]
fn add_field(form: Form, vector: &[u32], i: usize, page: &mut Page)
    requires there { i < fields_in form (length vector.now) }
    requires halves { AreSlots form vector.now }
    requires room { HasRoom page.old 20 }
    ensures text { page.new ≡ page.old ++ slice_index_or (texts form vector.now) i [] }
    ensures short { length page.new ≤ length page.old + 20 }
{
    match form {
        Form::Unsigned(_) => page.add_number(u64::from(vector[i])),
        Form::Signed => page.add_signed((vector[2 * i] * 65536 + vector[2 * i + 1]).cast_signed()),
    }
}
