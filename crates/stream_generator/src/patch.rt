//! The text of one patch.
ghost use Rattle.std.specs.Prelude.{◌≡◌, ◌<◌, ◌≤◌, ◌%◌, ◌++◌, IfOk};
ghost use Rattle.std.specs.Prelude.{codes, decimal, length, vec_len};
ghost use Rattle.delta_base.specs.Ids.{text_of};
ghost use Rattle.stream_generator.specs.Appended.{AppendsPiece};
ghost use Rattle.stream_generator.specs.Generator.{patch_number, prev_row, object_text, quad_line};
ghost use Rattle.stream_generator.specs.Generator.{quad_row, delete_row, block_rows, patch_text};

use delta_base::{Id, OutOfMemory, id_text};
use itoa::Buffer;
use std::alloc::Global;

/// The id of patch 0, if there were one.
const FIRST_ID: u128 = 0x0000_0000_0000_4000_8000_0000_0000_0000;

/// The bytes that a patch has at most.
pub const MOST_BYTES: usize = 256;

/// The text of the patch of this number, from 1.
pub fn patch_text(alloc: Global, number: u32) -> Result<Vec<u8>, OutOfMemory>
    requires { 1 ≤ number }
    ensures text { IfOk result (λ text. text.items ≡ patch_text number) }
    ensures some { IfOk result (λ text. 0 < vec_len text) }
{
    let mut text = Vec::with_capacity(alloc, MOST_BYTES)?;
    push_patch(&mut text, number)?;
    Ok(text)
}

/// Appends the text of the patch of this number, from 1. With room for it no memory is needed.
#[tactic(auto, unfolding(crate::specs::Generator::patch_text))]
pub fn push_patch(text: &mut Vec<u8>, number: u32) -> Result<(), OutOfMemory>
    requires { 1 ≤ number }
    ensures appends { AppendsPiece (patch_text number) text.old text.new result }
    ensures some { 0 < length (patch_text number) }
    ensures short { length (patch_text number) ≤ MOST_BYTES }
{
    push_id_row(text, b"H id <uuid:", number)?;
    push_prev_row(text, number)?;
    push_block(text, number)
}

// Appends the rows of a patch behind its headers.
fn push_block(text: &mut Vec<u8>, number: u32) -> Result<(), OutOfMemory>
    ensures { AppendsPiece (block_rows number) text.old text.new result }
{
    push(text, b"TX .\n")?;
    push_quad_row(text, b"A", number)?;
    push_block_end(text, number)
}

// Appends the rows of a block behind its first one.
fn push_block_end(text: &mut Vec<u8>, number: u32) -> Result<(), OutOfMemory>
    ensures { AppendsPiece (delete_row number ++ codes "TC .\n") text.old text.new result }
{
    push_delete_row(text, number)?;
    push(text, b"TC .\n")
}

// Appends bytes.
fn push(text: &mut Vec<u8>, bytes: &[u8]) -> Result<(), OutOfMemory>
    ensures { AppendsPiece bytes.now text.old text.new result }
{
    text.extend_from_slice(bytes)?;
    Ok(())
}

// Appends the row that names the patch before, if there is one.
fn push_prev_row(text: &mut Vec<u8>, number: u32) -> Result<(), OutOfMemory>
    requires { 1 ≤ number }
    ensures { AppendsPiece (prev_row number) text.old text.new result }
{
    if number == 1 {
        return Ok(());
    }
    push_id_row(text, b"H prev <uuid:", number - 1)
}

// Appends the row that deletes an earlier quad, in each third patch.
fn push_delete_row(text: &mut Vec<u8>, number: u32) -> Result<(), OutOfMemory>
    ensures { AppendsPiece (delete_row number) text.old text.new result }
{
    if number % 3 == 0 {
        push_quad_row(text, b"D", number / 3)
    } else {
        Ok(())
    }
}

// Appends a header row whose value is the id of the patch of this number.
fn push_id_row(text: &mut Vec<u8>, front: &[u8], number: u32) -> Result<(), OutOfMemory>
    ensures { AppendsPiece
        (front.now ++ (text_of (patch_number number) ++ codes "> .\n")) text.old text.new result }
{
    push(text, front)?;
    push(text, &id_text(Id(FIRST_ID + u128::from(number))))?;
    push(text, b"> .\n")
}

// Appends a number in decimal.
fn push_number(text: &mut Vec<u8>, number: u32) -> Result<(), OutOfMemory>
    ensures { AppendsPiece (decimal number) text.old text.new result }
{
    let mut buffer = Buffer::new();
    push(text, buffer.format(number).as_bytes())
}

// Appends the row of this code with the quad of the patch of this number.
fn push_quad_row(text: &mut Vec<u8>, code: &[u8], number: u32) -> Result<(), OutOfMemory>
    ensures { AppendsPiece (quad_row code.now number) text.old text.new result }
{
    push(text, code)?;
    push_quad(text, number)
}

// Appends the quad of the patch of this number and the row's dot.
fn push_quad(text: &mut Vec<u8>, number: u32) -> Result<(), OutOfMemory>
    ensures { AppendsPiece (quad_line number) text.old text.new result }
{
    let subject = number % 100;
    push(text, b" <http://g/s")?;
    push_number(text, subject)?;
    push_predicate(text, number)
}

// Appends what stands behind the number of the quad's subject.
fn push_predicate(text: &mut Vec<u8>, number: u32) -> Result<(), OutOfMemory>
    ensures { AppendsPiece (codes "> <http://g/p" ++ (decimal (number % 7) ++ object_text number))
        text.old text.new result }
{
    push(text, b"> <http://g/p")?;
    push_number(text, number % 7)?;
    push_object(text, number)
}

// Appends what stands behind the number of the quad's predicate.
fn push_object(text: &mut Vec<u8>, number: u32) -> Result<(), OutOfMemory>
    ensures { AppendsPiece (object_text number) text.old text.new result }
{
    push(text, b"> \"")?;
    push_number(text, number)?;
    push(text, b"\" .\n")
}
