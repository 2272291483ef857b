// The C boundary of the charge: the one function that the office program calls, over limits, prices
// and cents in the caller's memory. It asks nothing of its caller beyond what a reference itself
// carries.
#![tactic(auto)]

ghost use Rattle.std.specs.Prelude.{◌≡◌};
ghost use Rattle.charge.specs.Charge.{charged};
ghost use Rattle.charge_c.specs.Codes.{tariff_of, answer_of};

use charge::Tariff;

// The number of the answer. *cents is 0 where the charge is refused.
#[unsafe(no_mangle)]
pub extern "C" fn pd3120_charge(
    earlier: i32,
    later: i32,
    litres_per_pulse: u32,
    blocks: u32,
    limits: &[u64; 3],
    prices: &[u32; 4],
    cents: &mut u64,
) -> u32
    ensures { answer_of result cents.new ≡ charged earlier later litres_per_pulse (tariff_of blocks limits.now prices.now) }
{
    let tariff = Tariff {
        blocks,
        limits: *limits,
        prices: *prices,
    };
    match charge::charge(earlier, later, litres_per_pulse, tariff) {
        Ok(sum) => {
            *cents = sum;
            0
        }
        Err(why) => {
            *cents = 0;
            u32::from(why.number())
        }
    }
}
