// Whole-number sums of the bytes of two Float8 bodies, and what cosine and dot make of them.
ghost use Rattle.std.specs.Prelude.{◌≡◌, ◌≤◌, length};
ghost use Rattle.vector_types.specs.Layout.{max_dims};
ghost use Rattle.distance_sums.specs.Float8.{totals_of, scaled_dot, scaled_norm};

use bodies::float8::WideScale;

// Sums of the bytes of each body, of their squares, and of the products: at most 65,025 * 65,536.
#[derive(Clone, Copy)]
pub struct Totals {
    pub sum1: u32,
    pub sum2: u32,
    pub squares1: u32,
    pub squares2: u32,
    pub products: u32,
}

impl Totals {
    fn new() -> Self
        ensures { result ≡ record { sum1 = 0; sum2 = 0; squares1 = 0; squares2 = 0; products = 0 } }
    {
        Self {
            sum1: 0,
            sum2: 0,
            squares1: 0,
            squares2: 0,
            products: 0,
        }
    }
}

pub fn totals_of(dims: usize, a: &[u8], b: &[u8]) -> Totals
    requires dims_le_max_dims { dims ≤ max_dims }
    requires dims_in_bounds { dims ≤ length a.now }
    requires dims_in_bounds_2 { dims ≤ length b.now }
    ensures { result ≡ totals_of a.now b.now dims }
{
    let mut t = Totals::new();
    let mut i = 0;
    while i < dims {
        let p = a[i] as u32;
        let q = b[i] as u32;
        t = Totals {
            sum1: t.sum1 + p,
            sum2: t.sum2 + q,
            squares1: t.squares1 + p * p,
            squares2: t.squares2 + q * q,
            products: t.products + p * q,
        };
        i += 1;
    }
    t
}

// The dot of two vectors from their sums, and the square of a norm, term by term as the Rust has them.
pub fn dot_of(u: WideScale, v: WideScale, t: Totals, dims: u32) -> f64
    ensures { result ≡ scaled_dot u v t dims }
{
    u.alpha * v.alpha * t.products as f64
        + u.alpha * v.shift * t.sum1 as f64
        + v.alpha * u.shift * t.sum2 as f64
        + u.shift * v.shift * dims as f64
}

pub fn norm_of(u: WideScale, squares: u32, sum: u32, dims: u32) -> f64
    ensures { result ≡ scaled_norm u squares sum dims }
{
    u.alpha * u.alpha * squares as f64
        + 2.0 * u.alpha * u.shift * sum as f64
        + u.shift * u.shift * dims as f64
}
