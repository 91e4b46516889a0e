// The words of the nets of a module between two edges.
use mx_base::NoMemory;
use rtl_ir::{Expr, Module, NetId, Sign};
use std::alloc::Global;

// The word at this number, and 0 past the last one.
fn at(words: &[u128], number: usize) -> u128 {
    words.get(number).copied().unwrap_or(0)
}

// The word of a net.
pub(crate) fn word(words: &[u128], net: NetId) -> u128 {
    at(words, net.index())
}

// What an operator that a control has gives on two words.
fn combined(sign: Sign, a: u128, b: u128) -> u128 {
    match sign {
        Sign::And => a & b,
        Sign::Or => a | b,
        Sign::Lt => u128::from(a < b),
        Sign::Add => a.wrapping_add(b),
        _ => 0,
    }
}

// The value of a right side, of the kinds that a control has, where the nets have these words.
fn value(expr: Expr, words: &[u128]) -> u128 {
    match expr {
        Expr::Net(net) => word(words, net),
        Expr::Literal(literal) => literal.bits(),
        Expr::Not(net) => !word(words, net),
        Expr::Binary(sign, a, b) => combined(sign, word(words, a), word(words, b)),
        Expr::Choose(test, yes, no) => {
            let chosen = if word(words, test) == 1 { yes } else { no };
            word(words, chosen)
        }
        _ => 0,
    }
}

// The lowest bits of a number, as many as the width.
fn lowest(number: u128, width: u8) -> u128 {
    number & u128::MAX.wrapping_shr(128u32.saturating_sub(width as u32))
}

// The words of all nets, where the first ones, which are the ports and the registers, have these
// words. Each assignment reads nets that have theirs already.
pub(crate) fn settled(
    alloc: Global,
    module: &Module,
    given: &[u128],
) -> Result<Vec<u128>, NoMemory> {
    let nets = module.nets.as_slice();
    let mut words = Vec::new(alloc);
    for number in 0..nets.len() {
        words.push(at(given, number))?;
    }
    for assign in module.assigns.as_slice() {
        let target = assign.target.index();
        let new = value(assign.expr, &words);
        if let (Some(word), Some(net)) = (words.get_mut(target), nets.get(target)) {
            *word = lowest(new, net.width);
        }
    }
    Ok(words)
}
