//! Notes by number.

ghost use Rattle.std.specs.Prelude.{◌≡◌, ℕ, OnOk};
ghost use Rattle.sx_images.specs.Images.{noted_at, with_note};

use sx_term::NoMemory;

/// What is noted at the number, if anything is.
pub(crate) fn noted<N: Copy>(notes: &[Option<N>], number: usize) -> Option<N>
    ensures { result ≡ noted_at notes.now number }
{
    match notes.get(number) {
        Some(note) => *note,
        None => None,
    }
}

/// Notes the value at the number.
pub(crate) fn note<N: Copy>(
    notes: &mut Vec<Option<N>>,
    number: usize,
    value: N,
) -> Result<(), NoMemory>
    ensures { OnOk result ((i : ℕ) → noted_at notes.new.items i
        ≡ with_note (noted_at notes.old.items) number value i) }
{
    for _ in notes.len()..number {
        notes.push(None)?;
    }
    if number < notes.len() {
        notes[number] = Some(value);
        return Ok(());
    }
    notes.push(Some(value))?;
    Ok(())
}
