//! The text of a plan: written, and read.
ghost use Rattle.std.specs.Prelude.{◌≡◌, ◌<◌, ◌≤◌, ◌^◌, ◌++◌, ◌∷◌, length, decimal, true, OnOk};
ghost use Rattle.aftr_base.specs.Plan.{is_plan};
ghost use Rattle.nat_events.specs.PlanText.{aggregates_text, hex_digit, hex_digits, plan_text, pool_text, prefix4_text, prefix6_text};

use aftr_base::{List, NoMemory, PlanSpec, Prefix4, Prefix6};
use itoa::Buffer;

/// Writes the text of a plan behind what is there: the subscriber length, the block size and the ratio in decimal, the
/// letter a and each aggregate, the letter p and each prefix of the pool, with one space between two parts. A prefix is
/// its bits in hexadecimal, a slash and its length. The text of a plan with values that a plan may have is short. After `NoMemory` a part of the text may be there.
#[tactic(auto, using(crate::proofs::TextLens::plan_text_short), unfolding(crate::specs::PlanText::plan_text))]
pub fn plan_text(spec: &PlanSpec, out: &mut List<u8>) -> Result<(), NoMemory>
    ensures ok { OnOk result (out.new ≡ out.old ++ plan_text spec.now) }
    ensures short { is_plan spec.now ≡ true → length (plan_text spec.now) ≤ 4096 }
{
    push_number(u16::from(spec.subscriber_len), out)?;
    push_spaced(spec.block_size, out)?;
    push_spaced(spec.ratio, out)?;
    out.extend_from_slice(b" a")?;
    push_aggregates(spec.aggregates.as_slice(), out)?;
    out.extend_from_slice(b" p")?;
    push_pool(spec.pool.as_slice(), out)
}

fn push_number(number: u16, out: &mut List<u8>) -> Result<(), NoMemory>
    ensures { OnOk result (out.new ≡ out.old ++ decimal number) }
{
    let mut buffer = Buffer::new();
    out.extend_from_slice(buffer.format(number).as_bytes())
}

fn push_spaced(number: u16, out: &mut List<u8>) -> Result<(), NoMemory>
    ensures { OnOk result (out.new ≡ out.old ++ 32 ∷ decimal number) }
{
    out.push(b' ')?;
    push_number(number, out)
}

fn push_aggregates(aggregates: &[Prefix6], out: &mut List<u8>) -> Result<(), NoMemory>
    ensures { OnOk result (out.new ≡ out.old ++ aggregates_text aggregates.now) }
{
    for prefix in aggregates {
        push_prefix6(*prefix, out)?;
    }
    Ok(())
}

fn push_prefix6(prefix: Prefix6, out: &mut List<u8>) -> Result<(), NoMemory>
    ensures { OnOk result (out.new ≡ out.old ++ 32 ∷ prefix6_text prefix) }
{
    out.push(b' ')?;
    push_hex(prefix.bits.0, 32, out)?;
    out.push(b'/')?;
    push_number(u16::from(prefix.len), out)
}

fn push_pool(pool: &[Prefix4], out: &mut List<u8>) -> Result<(), NoMemory>
    ensures { OnOk result (out.new ≡ out.old ++ pool_text pool.now) }
{
    for prefix in pool {
        push_prefix4(*prefix, out)?;
    }
    Ok(())
}

fn push_prefix4(prefix: Prefix4, out: &mut List<u8>) -> Result<(), NoMemory>
    ensures { OnOk result (out.new ≡ out.old ++ 32 ∷ prefix4_text prefix) }
{
    out.push(b' ')?;
    push_hex(u128::from(prefix.bits.0), 8, out)?;
    out.push(b'/')?;
    push_number(u16::from(prefix.len), out)
}

// The last so many hexadecimal digits.
fn push_hex(bits: u128, digits: u32, out: &mut List<u8>) -> Result<(), NoMemory>
    requires { digits ≤ 32 }
    ensures { OnOk result (out.new ≡ out.old ++ hex_digits digits bits) }
{
    for k in 0..digits {
        let place = digits - 1 - k;
        out.push(hex_digit(((bits >> (4 * place)) % 16) as u8))?;
    }
    Ok(())
}

fn hex_digit(value: u8) -> u8
    requires { value < 16 }
    ensures { result ≡ hex_digit value }
{
    if value < 10 {
        b'0' + value
    } else {
        b'a' - 10 + value
    }
}

/// How many bytes the text of a plan has, where they are fewer than 65,536.
#[tactic(auto, using(crate::proofs::TextLens::text_length))]
pub(crate) fn text_len(spec: &PlanSpec) -> usize
    requires { length (plan_text spec.now) < 2 ^ 16 }
    ensures { result ≡ length (plan_text spec.now) }
{
    let numbers = number_len(u16::from(spec.subscriber_len))
        + number_len(spec.block_size)
        + number_len(spec.ratio);
    let aggregates = aggregates_len(spec.aggregates.as_slice());
    let pool = pool_len(spec.pool.as_slice());
    // a space before each of the second number, the third, the letter a and the letter p
    numbers + aggregates + pool + 6
}

fn number_len(number: u16) -> usize
    ensures value { result ≡ length (decimal number) }
    ensures small { result ≤ 40 }
{
    let mut buffer = Buffer::new();
    buffer.format(number).len()
}

fn aggregates_len(aggregates: &[Prefix6]) -> usize
    requires { length (aggregates_text aggregates.now) < 2 ^ 16 }
    ensures { result ≡ length (aggregates_text aggregates.now) }
{
    let mut len = 0;
    for prefix in aggregates {
        // a space, the digits and a slash
        len += 34 + number_len(u16::from(prefix.len));
    }
    len
}

fn pool_len(pool: &[Prefix4]) -> usize
    requires { length (pool_text pool.now) < 2 ^ 16 }
    ensures { result ≡ length (pool_text pool.now) }
{
    let mut len = 0;
    for prefix in pool {
        // a space, the digits and a slash
        len += 10 + number_len(u16::from(prefix.len));
    }
    len
}
