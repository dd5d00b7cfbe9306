// The decimal constants as fractions.
ghost use Rattle.std.specs.Prelude.{◌≡◌};
ghost use Rattle.number.specs.Decimals.{decimal};
ghost use Rattle.number.specs.Exactness.{decimal_value};
ghost use Rattle.fraction.specs.Bounded.{constant};
ghost use Rattle.fraction.specs.Fractions.{meaning_of};
ghost use Rattle.fraction.specs.Tables.{lowest_terms_of};

use super::Fraction;
use super::made::{LowestTerms, lost};
use number::Literal;

// Numerator and denominator in lowest terms, in the order of `Literal`; none where the fraction exceeds the bound. A `match` would
// say the same in 116 arms; a constant would be built anew on the stack at each use.
static LOWEST_TERMS: [Option<(i64, u64)>; 116] = [
    Some((1, 2)),
    Some((2, 5)),
    Some((4, 5)),
    Some((5, 4)),
    Some((9, 10)),
    Some((103, 500)),
    Some((3, 100)),
    Some((-23521291, 12500000)),
    Some((80936493, 100000000)),
    Some((22680513, 12500000)),
    Some((29861319, 25000000)),
    Some((119086277, 100000000)),
    Some((22072091, 12500000)),
    Some((59662641, 100000000)),
    Some((75515197, 100000000)),
    Some((11354249, 20000000)),
    Some((14791303, 20000000)),
    Some((-11488601, 25000000)),
    Some((8285427, 100000000)),
    Some((1254107, 10000000)),
    Some((3625801, 25000000)),
    Some((33933413, 25000000)),
    Some((-915799, 100000000)),
    Some((-11513021, 10000000)),
    Some((-25279803, 50000000)),
    Some((692167, 100000000)),
    Some((40767416621, 10000000000)),
    Some((33077115913, 10000000000)),
    Some((-33077115913, 10000000000)),
    Some((577424823, 2500000000)),
    Some((6342190023, 5000000000)),
    Some((-6342190023, 5000000000)),
    Some((26097574011, 10000000000)),
    Some((682638793, 2000000000)),
    Some((-682638793, 2000000000)),
    Some((41960863, 10000000000)),
    Some((-41960863, 10000000000)),
    Some((7034186147, 10000000000)),
    Some((-7034186147, 10000000000)),
    Some((1707614701, 1000000000)),
    Some((1981688887, 5000000000)),
    Some((2158037573, 10000000000)),
    Some((527806729, 5000000000)),
    Some((-527806729, 5000000000)),
    Some((19954429, 312500000)),
    Some((35793671, 400000000)),
    Some((-35793671, 400000000)),
    Some((322871387, 250000000)),
    Some((11516993, 100000000)),
    Some((74477897, 10000000)),
    Some((10397531, 2500000)),
    Some((-219557347, 100000000)),
    Some((175198401, 100000000)),
    Some((-53426237, 25000000)),
    Some((1002301043, 100000000)),
    Some((-424894561, 100000000)),
    Some((538770819, 100000000)),
    Some((469891013, 100000000)),
    Some((5619821, 50000000)),
    Some((252063, 156250)),
    Some((68124379, 100000000)),
    Some((10092653, 25000000)),
    Some((90148123, 100000000)),
    Some((-27087943, 100000000)),
    Some((6122399, 10000000)),
    Some((59843, 20000000)),
    Some((2837473, 6250000)),
    Some((916367, 6250000)),
    Some((1030553677, 2500000000)),
    Some((5363325363, 10000000000)),
    Some((514459929, 10000000000)),
    Some((1059517491, 5000000000)),
    Some((6806995451, 10000000000)),
    Some((536984783, 5000000000)),
    Some((883024619, 10000000000)),
    Some((352148547, 1250000000)),
    Some((1259957401, 2000000000)),
    Some((2104542553, 10000000000)),
    Some((158723557, 200000000)),
    Some((10180117, 2500000000)),
    Some((-10180117, 2500000000)),
    Some((19779984951, 10000000000)),
    Some((485718441, 200000000)),
    Some((-485718441, 200000000)),
    Some((4505937099, 10000000000)),
    Some((259040371, 10000000000)),
    Some((3913858831, 5000000000)),
    Some((404337883, 500000000)),
    Some((-404337883, 500000000)),
    Some((8190224432164319, 10000000000000000)),
    Some((3619062562801221, 10000000000000000)),
    Some((-6443689130608207, 50000000000000000)),
    Some((329836671980271, 10000000000000000)),
    Some((4646434234482773, 5000000000000000)),
    Some((903616704249961, 25000000000000000)),
    Some((9635439913209251, 200000000000000000)),
    Some((6605988123605691, 25000000000000000)),
    Some((6335478258136937, 10000000000000000)),
    Some((12268798733741557, 10000000000000000)),
    Some((-5578149965554813, 10000000000000000)),
    Some((28139105017721583, 100000000000000000)),
    Some((-1014394065607843, 25000000000000000)),
    Some((5561434146985297, 5000000000000000)),
    Some((-7171106666151701, 100000000000000000)),
    Some((-3818647487336071, 50000000000000000)),
    Some((-2107466619813957, 5000000000000000)),
    Some((7934620122136209, 5000000000000000)),
    None,
    None,
    None,
    None,
    None,
    None,
    None,
    None,
    None,
];

fn lowest_terms_of(l: Literal) -> Option<(i64, u64)>
    ensures { result ≡ lowest_terms_of (decimal l) }
{
    LOWEST_TERMS[l as usize]
}

// The decimal, lost if it exceeds the bound.
pub(super) fn of_literal(l: Literal) -> Fraction
    ensures { meaning_of result ≡ constant (decimal_value (decimal l)) }
{
    let Some((numerator, denominator)) = lowest_terms_of(l) else {
        return lost();
    };
    LowestTerms {
        negative: numerator < 0,
        size: numerator.unsigned_abs(),
        denominator,
    }
    .bounded()
}
