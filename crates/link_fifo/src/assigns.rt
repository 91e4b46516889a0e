// What each net is given.
ghost use Rattle.std.specs.Prelude.{◌≡◌, ◌≤◌, ◌++◌, IfOk, OnOk};
ghost use Rattle.link_fifo.specs.Netlist.{state_assigns, move_assigns, place_assigns};
ghost use Rattle.link_fifo.specs.Netlist.{count_assigns, address_assigns, the_assigns};

use crate::exprs::{binary, cell, choose, concat, gets, low_part, not};
use crate::nets::{
    ADDRESS, ALWAYS, AT_LAST, BEFORE_COUNT, BEFORE_PLACE, COUNT, COUNT_KEPT, COUNT_LEFT,
    COUNT_TAKEN, DEPTH, EMPTY, FIRST_PLACE, FULL, GIVES, IN_READY, IN_VALID, LAST_PLACE, LOW_DEPTH,
    NEXT_COUNT, NEXT_PLACE, NONE, ONE_PLACE, ONE_WORD, OUT_DATA, OUT_READY, OUT_VALID, PLACE,
    PLACE_AFTER, PLACE_LEFT, PLACE_ROUND, RESET, ROUND_LOW, SUM, SUM_BELOW, SUM_LOW, TAKES,
    WIDE_COUNT, WIDE_DEPTH, WIDE_PLACE, WORD_LESS, WORD_MORE, WORDS,
};
use crate::numbers::Numbers;
use mx_base::{List, NoMemory};
use rtl_ir::{Assign, Expr, Sign};
use std::alloc::Global;

// It is ready where it isn't full, valid where it isn't empty, and gives the word at its place.
fn add_state(assigns: &mut Vec<Assign>, numbers: Numbers) -> Result<(), NoMemory>
    ensures { OnOk result (assigns.new.items ≡ assigns.old.items ++ state_assigns numbers) }
{
    assigns.extend_from_slice(&[
        gets(DEPTH, Expr::Literal(numbers.count.last)),
        gets(FULL, binary(Sign::Eq, COUNT, DEPTH)),
        gets(IN_READY, not(FULL)),
        gets(NONE, Expr::Literal(numbers.count.zero)),
        gets(EMPTY, binary(Sign::Eq, COUNT, NONE)),
        gets(OUT_VALID, not(EMPTY)),
        gets(OUT_DATA, cell(WORDS, PLACE)),
    ])?;
    Ok(())
}

// A word moves where valid and ready are 1.
fn add_moves(assigns: &mut Vec<Assign>) -> Result<(), NoMemory>
    ensures { OnOk result (assigns.new.items ≡ assigns.old.items ++ move_assigns) }
{
    assigns.extend_from_slice(&[
        gets(TAKES, binary(Sign::And, IN_VALID, IN_READY)),
        gets(GIVES, binary(Sign::And, OUT_VALID, OUT_READY)),
    ])?;
    Ok(())
}

// The place steps round where a word is given. A reset clears it.
fn add_place(assigns: &mut Vec<Assign>, numbers: Numbers) -> Result<(), NoMemory>
    ensures { OnOk result (assigns.new.items ≡ assigns.old.items ++ place_assigns numbers) }
{
    assigns.extend_from_slice(&[
        gets(LAST_PLACE, Expr::Literal(numbers.place.last)),
        gets(AT_LAST, binary(Sign::Eq, PLACE, LAST_PLACE)),
        gets(ONE_PLACE, Expr::Literal(numbers.place.one)),
        gets(PLACE_AFTER, binary(Sign::Add, PLACE, ONE_PLACE)),
        gets(FIRST_PLACE, Expr::Literal(numbers.place.zero)),
        gets(PLACE_ROUND, choose(AT_LAST, FIRST_PLACE, PLACE_AFTER)),
        gets(PLACE_LEFT, choose(GIVES, PLACE_ROUND, PLACE)),
        gets(NEXT_PLACE, choose(RESET, FIRST_PLACE, PLACE_LEFT)),
    ])?;
    Ok(())
}

// The count goes up where a word is taken alone, and down where one is given alone. A reset clears
// it.
fn add_count(assigns: &mut Vec<Assign>, numbers: Numbers) -> Result<(), NoMemory>
    ensures { OnOk result (assigns.new.items ≡ assigns.old.items ++ count_assigns numbers) }
{
    assigns.extend_from_slice(&[
        gets(ONE_WORD, Expr::Literal(numbers.count.one)),
        gets(WORD_MORE, binary(Sign::Add, COUNT, ONE_WORD)),
        gets(WORD_LESS, binary(Sign::Sub, COUNT, ONE_WORD)),
        gets(COUNT_TAKEN, choose(GIVES, COUNT, WORD_MORE)),
        gets(COUNT_KEPT, choose(GIVES, WORD_LESS, COUNT)),
        gets(COUNT_LEFT, choose(TAKES, COUNT_TAKEN, COUNT_KEPT)),
        gets(NEXT_COUNT, choose(RESET, NONE, COUNT_LEFT)),
    ])?;
    Ok(())
}

// A word is written at the place and the count together, round the depth.
fn add_address(assigns: &mut Vec<Assign>, place_bits: u8, numbers: Numbers) -> Result<(), NoMemory>
    requires some { 1 ≤ place_bits }
    ensures { OnOk result (assigns.new.items
        ≡ assigns.old.items ++ address_assigns place_bits numbers) }
{
    assigns.extend_from_slice(&[
        gets(ALWAYS, Expr::Literal(numbers.high)),
        gets(BEFORE_PLACE, Expr::Literal(numbers.before_place)),
        gets(BEFORE_COUNT, Expr::Literal(numbers.before_count)),
        gets(WIDE_PLACE, concat(BEFORE_PLACE, PLACE)),
        gets(WIDE_COUNT, concat(BEFORE_COUNT, COUNT)),
        gets(SUM, binary(Sign::Add, WIDE_PLACE, WIDE_COUNT)),
        gets(WIDE_DEPTH, Expr::Literal(numbers.wide_depth)),
        gets(SUM_BELOW, binary(Sign::Lt, SUM, WIDE_DEPTH)),
        gets(SUM_LOW, low_part(SUM, place_bits - 1)),
        gets(LOW_DEPTH, Expr::Literal(numbers.low_depth)),
        gets(ROUND_LOW, binary(Sign::Sub, SUM_LOW, LOW_DEPTH)),
        gets(ADDRESS, choose(SUM_BELOW, SUM_LOW, ROUND_LOW)),
    ])?;
    Ok(())
}

/// The assignments of a FIFO with these numbers, whose place has `place_bits` bits.
pub fn assigns_of(alloc: Global, place_bits: u8, numbers: Numbers) -> Result<List<Assign>, NoMemory>
    requires some { 1 ≤ place_bits }
    ensures { IfOk result (λ l. l ≡ the_assigns place_bits numbers) }
{
    let mut assigns = Vec::new(alloc);
    add_state(&mut assigns, numbers)?;
    add_moves(&mut assigns)?;
    add_place(&mut assigns, numbers)?;
    add_count(&mut assigns, numbers)?;
    add_address(&mut assigns, place_bits, numbers)?;
    Ok(List::from_vec(assigns))
}
