#![tactic(auto)]
// The 64-bit code of four measures, by a table that spreads a byte.
ghost use Rattle.std.specs.Prelude.{◌≡◌, ◌-◌, ◌*◌, ◌^◌, ◌<◌};
ghost use Rattle.codes.specs.Codes.{spread, code_of, Interleaved, Alone, Worked};

use stations::Measures;

mod table;

use table::SPREAD;

fn spread_byte(byte: u8) -> u32
    ensures { result ≡ spread 8 byte }
{
    SPREAD[usize::from(byte)]
}

// Bit j of the measure goes to bit 4j.
fn spread_measure(measure: u16) -> u64
    ensures value { result ≡ spread 16 measure }
    ensures small { 15 * result < 2 ^ 64 }
{
    let [high, low] = measure.to_be_bytes();
    u64::from(spread_byte(low)) + (u64::from(spread_byte(high)) << 32)
}

// The bits of the four measures in turn, so that stations that are near in all four measures tend to have near codes.
pub fn code(at: Measures) -> u64
    ensures value { result ≡ code_of «at» }
    ensures bits { Interleaved «at» result }
    ensures apart { Alone «at» result }
{
    let Measures { m1, m2, m3, m4 } = at;
    (spread_measure(m1) << 3)
        + (spread_measure(m2) << 2)
        + (spread_measure(m3) << 1)
        + spread_measure(m4)
}

// The code of the worst measures, every bit set.
#[tactic(auto, unfolding(crate::specs::Codes::spread))]
pub fn last_code() -> u64
    ensures value { result ≡ 2 ^ 64 - 1 }
    ensures worked { Worked }
{
    code(Measures {
        m1: u16::MAX,
        m2: u16::MAX,
        m3: u16::MAX,
        m4: u16::MAX,
    })
}
