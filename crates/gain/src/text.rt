//! The text of a line.
ghost use Rattle.std.specs.Prelude.{◌≡◌, ◌≤◌, ◌++◌, OnOk, IfSome};
ghost use Rattle.gain.specs.Measured.{HasFewSteps};
ghost use Rattle.gain.specs.Text as spec;

use crate::kinds::Kinds;
use crate::measure::{Base, Measured};
use even_speed::Account;
use itoa::Buffer;
use std::alloc::AllocError;

/// Adds the line of a run on so many cores over the store of this name, beside the run on one core: one where loads wait for what earlier epochs
/// store, or another; with how long cores were held or without.
#[tactic(auto, unfolding(crate::specs::Text::line_text))]
pub fn push_line(
    text: &mut Vec<u8>,
    in_order: bool,
    held: bool,
    store: &[u8],
    cores: u32,
    base: &Base,
    measured: &Option<Measured>,
) -> Result<(), AllocError>
    requires first { IfSome base.now.first HasFewSteps }
    requires measured { IfSome measured.now HasFewSteps }
    ensures { OnOk result (text.new.items ≡ text.old.items ++ spec.line_text in_order held store.now cores base.now measured.now) }
{
    push_name(text, in_order)?;
    text.extend_from_slice(store)?;
    push_number(text, b" cores ", cores as u64)?;
    push_told(text, held, base, measured)?;
    text.extend_from_slice(b"\n")
}

fn push_name(text: &mut Vec<u8>, in_order: bool) -> Result<(), AllocError>
    ensures { OnOk result (text.new.items ≡ text.old.items ++ spec.name_text in_order) }
{
    if in_order {
        text.extend_from_slice(b"held ")
    } else {
        text.extend_from_slice(b"store ")
    }
}

fn push_told(
    text: &mut Vec<u8>,
    held: bool,
    base: &Base,
    measured: &Option<Measured>,
) -> Result<(), AllocError>
    requires first { IfSome base.now.first HasFewSteps }
    requires measured { IfSome measured.now HasFewSteps }
    ensures { OnOk result (text.new.items ≡ text.old.items ++ spec.told_text held base.now measured.now) }
{
    match measured {
        Some(run) => push_run(text, held, base, run),
        None => text.extend_from_slice(b" full"),
    }
}

#[tactic(auto, unfolding(crate::specs::Text::run_text))]
fn push_run(text: &mut Vec<u8>, held: bool, base: &Base, run: &Measured) -> Result<(), AllocError>
    requires first { IfSome base.now.first HasFewSteps }
    requires run { HasFewSteps run.now }
    ensures { OnOk result (text.new.items ≡ text.old.items ++ spec.run_text held base.now run.now) }
{
    push_number(text, b" steps ", run.ran.steps)?;
    push_gain(text, &base.first, run.ran.steps)?;
    push_order(text, base.order)?;
    push_account(text, held, base.order.is_some(), &run.ran.account)?;
    push_number(text, b" restarts ", run.restarts)?;
    push_kinds(text, &run.kinds)?;
    push_waits(text, &run.ran.account)
}

/// How much faster than on one core, with two decimals, rounded down.
fn push_gain(text: &mut Vec<u8>, first: &Option<Measured>, steps: u64) -> Result<(), AllocError>
    requires first { IfSome first.now HasFewSteps }
    requires steps { 1 ≤ steps }
    ensures { OnOk result (text.new.items ≡ text.old.items ++ spec.gain_text first.now steps) }
{
    match first {
        Some(first) => push_hundredths(text, first.ran.steps * 100 / steps),
        None => text.extend_from_slice(b" gain -"),
    }
}

fn push_hundredths(text: &mut Vec<u8>, n: u64) -> Result<(), AllocError>
    ensures { OnOk result (text.new.items ≡ text.old.items ++ spec.hundredths_text n) }
{
    push_number(text, b" gain ", n / 100)?;
    push_number(text, b".", n / 10 % 10)?;
    push_number(text, b"", n % 10)
}

#[tactic(auto, unfolding(crate::specs::Text::account_text))]
fn push_account(
    text: &mut Vec<u8>,
    held: bool,
    priced: bool,
    account: &Account,
) -> Result<(), AllocError>
    requires { spec.HasFew account.now }
    ensures { OnOk result (text.new.items ≡ text.old.items ++ spec.account_text held priced account.now) }
{
    push_useful(text, priced, account)?;
    push_number(text, b" lost ", account.lost)?;
    push_number(text, b" dropped ", account.dropped)?;
    push_number(text, b" waiting ", account.waiting())?;
    push_held(text, held, account.held)?;
    push_number(text, b" idle ", account.idle)
}

/// How many steps the loop takes in order, where turns cost something.
fn push_order(text: &mut Vec<u8>, order: Option<u64>) -> Result<(), AllocError>
    ensures { OnOk result (text.new.items ≡ text.old.items ++ spec.order_text order) }
{
    match order {
        Some(steps) => push_number(text, b" order ", steps),
        None => Ok(()),
    }
}

/// The steps of attempts that committed: where turns cost something, the instructions and what went beside them.
fn push_useful(text: &mut Vec<u8>, priced: bool, account: &Account) -> Result<(), AllocError>
    requires { spec.HasFew account.now }
    ensures { OnOk result (text.new.items ≡ text.old.items ++ spec.useful_text priced account.now) }
{
    if !priced {
        return push_number(text, b" useful ", account.useful());
    }
    push_number(text, b" busy ", account.busy)?;
    push_number(text, b" handling ", account.spent.handling)?;
    push_number(text, b" memory ", account.spent.memory)?;
    push_number(text, b" queue ", account.spent.queue)
}

/// How long cores were held, where that is told.
fn push_held(text: &mut Vec<u8>, held: bool, steps: u64) -> Result<(), AllocError>
    ensures { OnOk result (text.new.items ≡ text.old.items ++ spec.held_text held steps) }
{
    if held {
        push_number(text, b" held ", steps)?;
    }
    Ok(())
}

/// Whether it is told how long cores were held: where loads at these addresses wait.
pub fn shows_held(addresses: &[u32]) -> bool
    ensures { result ≡ spec.shows_held addresses.now }
{
    !addresses.is_empty()
}

fn push_kinds(text: &mut Vec<u8>, kinds: &Kinds) -> Result<(), AllocError>
    ensures { OnOk result (text.new.items ≡ text.old.items ++ spec.kinds_text kinds.now) }
{
    push_number(text, b" true ", kinds.true_sharing)?;
    push_number(text, b" silent ", kinds.silent_store)?;
    push_number(text, b" false ", kinds.false_sharing)?;
    push_number(text, b" buffer ", kinds.full_buffer)
}

fn push_waits(text: &mut Vec<u8>, account: &Account) -> Result<(), AllocError>
    ensures { OnOk result (text.new.items ≡ text.old.items ++ spec.waits_text account.now) }
{
    push_number(text, b" nothomefree ", account.not_homefree)?;
    push_number(text, b" noway ", account.no_way)?;
    push_number(text, b" orbfull ", account.orb_full)?;
    push_number(text, b" orbbusy ", account.orb_busy)
}

/// Adds a name and a number.
pub fn push_number(text: &mut Vec<u8>, name: &[u8], n: u64) -> Result<(), AllocError>
    ensures { OnOk result (text.new.items ≡ text.old.items ++ spec.number name.now n) }
{
    text.extend_from_slice(name)?;
    text.extend_from_slice(Buffer::new().format(n).as_bytes())
}
