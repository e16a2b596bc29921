//! Writes the lines of the blocking pairs, for `check`.

ghost use Rattle.std.specs.Prelude.{◌≡◌, ◌<◌, ◌++◌, All, OnOk, IfOk, length};
ghost use Rattle.spa_model.specs.Spa.{IsMatching};
ghost use Rattle.portal_answer.specs.Answer.{block_line, blocking, TellsBlocks};

use crate::answer::Output;
use spa_check::{Block, blocking_pairs};
use spa_model::{Instance, Matching};
use std::alloc::{AllocError, Global};

/// Appends the line of a blocking pair, for `check`.
fn put_block(
    alloc: Global,
    text: &mut Vec<u8>,
    instance: &Instance,
    block: &Block,
) -> Result<(), AllocError>
    requires student { block.now.student < length instance.now.choices }
    requires project { block.now.project < length instance.now.lecturers }
    ensures { OnOk result (text.new.items ≡ text.old.items ++ block_line instance.now block.now) }
{
    let letter = format!(in alloc; "{}", block.letter)?;
    text.extend_from_slice(b"block ")?;
    text.extend_from_slice(instance.student_key(block.student).as_bytes())?;
    text.extend_from_slice(b" ")?;
    text.extend_from_slice(instance.project_key(block.project).as_bytes())?;
    text.extend_from_slice(b" ")?;
    text.extend_from_slice(letter.as_bytes())?;
    text.extend_from_slice(b"\n")?;
    Ok(())
}

/// Writes a line for each blocking pair, then their number. The status is 0 without pairs, else 1.
fn lines(alloc: Global, instance: &Instance, blocks: &[Block]) -> Result<Output, AllocError>
    requires { All (λ b. (b.student < length instance.now.choices)
        × (b.project < length instance.now.lecturers)) blocks.now }
    ensures { IfOk result (λ t. t ≡ blocking instance.now blocks.now) }
{
    let mut text = Vec::new(alloc);
    for block in blocks {
        put_block(alloc, &mut text, instance, block)?;
    }
    let count = blocks.len();
    let last = format!(in alloc; "blocking {count}\n")?;
    text.extend_from_slice(last.as_bytes())?;
    let status = if count == 0 { 0 } else { 1 };
    Ok(Output { text, status })
}

/// Computes the answer of `check`: the pairs that block the matching.
pub(crate) fn check_answer(
    alloc: Global,
    instance: &Instance,
    matching: &Matching,
) -> Result<Output, AllocError>
    requires { IsMatching instance.now matching.now }
    ensures { IfOk result (λ t. TellsBlocks instance.now matching.now t) }
{
    let blocks = blocking_pairs(alloc, instance, matching)?;
    lines(alloc, instance, &blocks)
}
