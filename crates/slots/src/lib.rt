// The two source slots: where the samples of a bad block lie, handed from one block to the next.
// Nothing here clears a slot. What an earlier block left is what a later one reads.
#![tactic(auto)]

ghost use Rattle.std.specs.Prelude.{◌≡◌};
ghost use Rattle.slots.specs.Slots.{at_start, luma_written, chroma_written, active_of, with_active, luma_in_active, chroma_in_active, inside_of, moved_of};

use records::Offset;

#[derive(Clone, Copy, Default)]
pub struct Source {
    pub full: Offset,
    pub half: Offset,
    pub u: Offset,
    pub v: Offset,
}

// Stays a bool: which of the two is active has no value beside it, and the definitions of specs/ (`active_of`, `with_active`) read it as it is.
#[derive(Clone, Copy, Default)]
pub struct Slots {
    pub zero: Source,
    pub one: Source,
    pub one_active: bool,
}

// Both sources are absent, and slot 0 is active.
pub fn at_start() -> Slots
    ensures { result ≡ at_start }
{
    Slots::default()
}

// ---- which slot
pub fn active(slots: Slots) -> Source
    ensures { result ≡ active_of slots }
{
    if slots.one_active {
        slots.one
    } else {
        slots.zero
    }
}

fn with_active(slots: Slots, source: Source) -> Slots
    ensures { result ≡ with_active source slots }
{
    if slots.one_active {
        Slots {
            one: source,
            ..slots
        }
    } else {
        Slots {
            zero: source,
            ..slots
        }
    }
}

// A block inside its limits makes slot 0 active, and changes nothing in either.
pub fn inside(slots: Slots) -> Slots
    ensures { result ≡ inside_of slots }
{
    Slots {
        one_active: false,
        ..slots
    }
}

// A block that moves makes slot 1 active, and then writes there. What an earlier block left in slot 0 stays.
pub fn moved(slots: Slots) -> Slots
    ensures { result ≡ moved_of slots }
{
    Slots {
        one_active: true,
        ..slots
    }
}

// ---- what a write leaves of a source
// A negative block's samples lie over those of the full block, which stay; a plain block's own take
// their place.
fn luma_written(source: Source, negative: bool, offset: i32) -> Source
    ensures { result ≡ luma_written negative offset source }
{
    if negative {
        Source {
            half: Some(offset),
            ..source
        }
    } else {
        Source {
            full: Some(offset),
            half: None,
            ..source
        }
    }
}

fn chroma_written(source: Source, u: i32, v: i32) -> Source
    ensures { result ≡ chroma_written u v source }
{
    Source {
        u: Some(u),
        v: Some(v),
        ..source
    }
}

// ---- the cores: what a write leaves of the two slots, from a value to a value
fn luma_in_active(slots: Slots, negative: bool, offset: i32) -> Slots
    ensures { result ≡ luma_in_active negative offset slots }
{
    with_active(slots, luma_written(active(slots), negative, offset))
}

fn chroma_in_active(slots: Slots, u: i32, v: i32) -> Slots
    ensures { result ≡ chroma_in_active u v slots }
{
    with_active(slots, chroma_written(active(slots), u, v))
}

// ---- the writes: the record of both slots is changed where it stands
// Stays by `&mut` over cores from a value to a value: so the paper has it (docs/WALKS.md).
fn write_luma(slots: &mut Slots, negative: bool, offset: i32)
    ensures { slots.new ≡ luma_in_active negative offset slots.old }
{
    *slots = luma_in_active(*slots, negative, offset);
}

fn write_chroma(slots: &mut Slots, u: i32, v: i32)
    ensures { slots.new ≡ chroma_in_active u v slots.old }
{
    *slots = chroma_in_active(*slots, u, v);
}

// ---- the same from a value to a value: a record of their own is lent to the write. Who calls these
// lends nothing.
pub fn after_luma(slots: Slots, negative: bool, offset: i32) -> Slots
    ensures { result ≡ luma_in_active negative offset slots }
{
    let mut own = slots;
    write_luma(&mut own, negative, offset);
    own
}

pub fn after_chroma(slots: Slots, u: i32, v: i32) -> Slots
    ensures { result ≡ chroma_in_active u v slots }
{
    let mut own = slots;
    write_chroma(&mut own, u, v);
    own
}
