// The charge for the water between two readings of a Counter, for the office program: a library above
// the box. Of the box it names public functions and what their contracts show, and nothing of how it
// is made. No public function asks anything of its caller.
#![tactic(auto)]

ghost use Rattle.std.specs.Prelude.{◌≡◌, true, false, suc, ◌≤◌, length, IfOk, IfErr};
ghost use Rattle.charge.specs.Charge.{limits_of, prices_of, pulses, filled, priced, hundredths, rounded, rising, prices_allowed, question17, number_of, answer, charged};
ghost use Rattle.charge.specs.Claims.{most_litres, most_hundredths};

pub mod readings;

// The blocks in order: how many there are, the upper limits in litres of all but the last, and the
// prices in hundredths of a cent per litre. Limits and prices past the count are not looked at. The
// count stands beside arrays because the exported function `pd3120_charge` is given these three.
#[derive(Clone, Copy)]
pub struct Tariff {
    pub blocks: u32,
    pub limits: [u64; 3],
    pub prices: [u32; 4],
}

// Why a charge is refused, with the numbers of document 02.
#[derive(Clone, Copy, Debug, PartialEq, Eq)]
pub enum ChargeRefusal {
    LitresPerPulse = 16,
    Blocks = 17,
}

impl ChargeRefusal {
    pub fn number(self) -> u8
        ensures { result ≡ number_of self }
    {
        self as u8
    }
}

const MOST_BLOCKS: u32 = 4;

const HIGHEST_PRICE: u32 = 100000;

const MOST_LITRES_PER_PULSE: u32 = 10000;

fn pulses_between(earlier: i32, later: i32) -> u32
    ensures { result ≡ pulses earlier later }
{
    later.wrapping_sub(earlier).cast_unsigned()
}

// Each above the one before.
fn limits_rise(limits: &[u64]) -> bool
    ensures { result ≡ rising limits.now }
{
    limits.is_sorted_by(|a, b| a < b)
}

fn prices_allowed(prices: &[u32]) -> bool
    ensures { result ≡ prices_allowed prices.now }
{
    prices.iter().all(|p| *p <= HIGHEST_PRICE)
}

// The blocks of a tariff that question 17 allows: a price for each, and a limit for each but the
// last.
#[derive(Clone, Copy)]
struct AllowedBlocks<'a> {
    limits: &'a [u64],
    prices: &'a [u32],
    ghost rise: { rising limits.now ≡ true },
    ghost cheap: { prices_allowed prices.now ≡ true },
    ghost one_more: { length prices.now ≡ suc (length limits.now) },
}

impl AllowedBlocks<'_> {
    fn of(t: &Tariff) -> Result<AllowedBlocks<'_>, ChargeRefusal>
        ensures allowed { IfOk result (λ b. (question17 t.now ≡ true) × (b.limits.now ≡ limits_of t.now) × (b.prices.now ≡ prices_of t.now)) }
        ensures refused { IfErr result (λ e. (question17 t.now ≡ false) × (e ≡ ChargeRefusal.Blocks)) }
    {
        if t.blocks < 1 || MOST_BLOCKS < t.blocks {
            return Err(ChargeRefusal::Blocks);
        }
        let n = t.blocks as usize;
        let limits = &t.limits[..n - 1];
        let prices = &t.prices[..n];
        if !limits_rise(limits) || !prices_allowed(prices) {
            return Err(ChargeRefusal::Blocks);
        }
        Ok(AllowedBlocks { limits, prices })
    }

    // The litres fill the blocks in order; the last takes what is left. `as`, here and in `charge`: with
    // `u64::from` eight goals, as `overflow_mul-sum`, stay open (tried).
    fn fill(&self, litres: u64) -> u64
        requires { litres ≤ most_litres }
        ensures { (result ≡ priced (filled litres 0 self.now.limits.now) self.now.prices.now) × (result ≤ most_hundredths) }
    {
        let mut left = litres;
        let mut before = 0;
        let mut sum = 0;
        for (limit, price) in self.limits.iter().zip(self.prices) {
            let taken = left.min(*limit - before);
            sum += taken * (*price as u64);
            left -= taken;
            before = *limit;
        }
        sum + left * (self.prices[self.limits.len()] as u64)
    }
}

// The charge in cents for the pulses from the earlier Counter to the later one, rounded once, half
// upward.
pub fn charge(
    earlier: i32,
    later: i32,
    litres_per_pulse: u32,
    t: Tariff,
) -> Result<u64, ChargeRefusal>
    ensures { answer result ≡ charged earlier later litres_per_pulse t }
{
    if litres_per_pulse < 1 || MOST_LITRES_PER_PULSE < litres_per_pulse {
        return Err(ChargeRefusal::LitresPerPulse);
    }
    let blocks = AllowedBlocks::of(&t)?;
    let pulses = pulses_between(earlier, later);
    let litres = (pulses as u64) * (litres_per_pulse as u64);
    Ok((blocks.fill(litres) + 50) / 100)
}
