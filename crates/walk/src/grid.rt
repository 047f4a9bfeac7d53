// What the rounds of the extraction read (01, "Extraction"): the factors p of a grid in a flat table. The rounds themselves are `roundloop::extract_rounds`.
ghost use Rattle.std.specs.Prelude.{◌≡◌, ◌*◌, ◌/◌, ◌≤◌, length};

// Factors p of each row at each border, row after row. Rows that take no part have p = 0 at every border.
#[derive(Clone, Copy)]
pub struct Grid<'a> {
    pub rows: usize,
    pub borders: usize,
    pub p: &'a [u64],
    pub ghost in_bounds: { rows * borders ≤ length p.now },
}

impl<'a> Grid<'a> {
    ghost use Rattle.std.specs.Prelude.{◌<◌};
    ghost use Rattle.numbers.specs.Below.{table};
    ghost use Rattle.rounds.specs.Rounds.{sharers};
    ghost use Rattle.walk.specs.Flat.{flat_of};

    // p of row `i` at each border.
    pub fn row(&self, i: usize) -> &'a [u64]
        requires { i < self.now.rows }
        ensures len { length result.now ≡ self.now.borders }
        ensures factors { result.now ≡ table self.now.borders ((flat_of self.now).p i) }
    {
        let start = i * self.borders;
        &self.p[start..start + self.borders]
    }

    // p of row `i` at border `b`.
    pub fn factor(&self, i: usize, b: usize) -> u64
        requires { (i < self.now.rows) × (b < self.now.borders) }
        ensures { result ≡ (flat_of self.now).p i b }
    {
        self.p[i * self.borders + b]
    }

    // n of each row: how many borders have p > 0 there.
    pub fn count_sharers(&self, ns: &mut [u64])
        requires { length ns.old ≡ self.now.rows }
        ensures { ns.new ≡ table self.now.rows (sharers (flat_of self.now)) }
    {
        for i in 0..self.rows {
            let mut n: u64 = 0;
            for &f in self.row(i) {
                n += u64::from(f > 0);
            }
            ns[i] = n;
        }
    }
}

// The equal share of a margin among n, grains. Where n is 0 the answer does not matter: such a row has p = 0 at every border.
pub fn equal_share(margin: u64, n: u64) -> u64
    ensures { result ≡ margin / n }
{
    if n == 0 { 0 } else { margin / n }
}
