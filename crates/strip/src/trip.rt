// What is proved of the way from a reading to its colour and back, over every exact kind.
ghost use Rattle.std.specs.Prelude.{◌≡◌, true};
ghost use Rattle.strip.specs.Trip.{ComesHome, RowsComeHome};

use number::Exact;

/// Over every exact kind and every boundary: where the panel draws a reading and the page reads the colour, neither with a
/// refusal, the indication has the reading's opening and temperature, and its valve, or 0 where the opening is 0.
pub fn comes_home<N: Exact>() -> bool
    ensures answer { result ≡ true }
    ensures trip { ComesHome N.Number.arith }
{
    N::is_exact()
}

/// The same of rows, where the panel's and the page's boundary mean the same three numbers for every query: without a
/// refusal each indication is its reading's own, and with one those are that both calls wrote before it.
pub fn rows_come_home<N: Exact>() -> bool
    ensures answer { result ≡ true }
    ensures trip { RowsComeHome N.Number.arith }
{
    comes_home::<N>()
}
