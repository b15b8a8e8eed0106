// The running sums of a cosine, in either width, and the distance of vectors with such sums.
ghost use Rattle.std.specs.Prelude.{◌≡◌};
ghost use Rattle.std.specs.Float.{binary32, binary64};
ghost use Rattle.distance_sums.specs.Dense.{no_products, products_with, angle, dense_cosine};
ghost use Rattle.distance_sums.specs.Sparse.{products_rule, sparse_cosine};
ghost use Rattle.distance_cos.specs.Inner.Sums.{products32, products64};

// The running sums of a cosine: of products, and of the squares of each vector.
#[derive(Clone, Copy)]
pub struct CosSums32 {
    pub dot: f32,
    pub norm1: f32,
    pub norm2: f32,
}

#[derive(Clone, Copy)]
pub struct CosSums64 {
    pub dot: f64,
    pub norm1: f64,
    pub norm2: f64,
}

impl CosSums32 {
    pub(crate) fn new() -> Self
        ensures { products32 result ≡ no_products }
    {
        Self {
            dot: 0.0,
            norm1: 0.0,
            norm2: 0.0,
        }
    }

    // One pair more.
    pub(crate) fn step(self, x: f32, y: f32) -> Self
        ensures { products32 result ≡ products_with binary32 (products32 self) x y }
    {
        Self {
            dot: self.dot + x * y,
            norm1: self.norm1 + x * x,
            norm2: self.norm2 + y * y,
        }
    }

    // One element more that only the first vector has, or only the second.
    pub(crate) fn left(self, x: f32) -> Self
        ensures { products32 result ≡ (products_rule binary32).left (products32 self) x }
    {
        Self {
            dot: self.dot,
            norm1: self.norm1 + x * x,
            norm2: self.norm2,
        }
    }

    pub(crate) fn right(self, y: f32) -> Self
        ensures { products32 result ≡ (products_rule binary32).right (products32 self) y }
    {
        Self {
            dot: self.dot,
            norm1: self.norm1,
            norm2: self.norm2 + y * y,
        }
    }

    fn angle(self) -> f32
        ensures { result ≡ angle binary32 (products32 self) }
    {
        let product = self.norm1 * self.norm2;
        1.0 - self.dot / rounding::root32(product)
    }

    // The distance of dense vectors with these sums.
    pub(crate) fn distance(self) -> f64
        ensures { result ≡ dense_cosine binary32 (products32 self) }
    {
        if self.norm1 == 0.0 {
            if self.norm2 == 0.0 {
                return 0.0;
            }
        }
        if self.dot == 0.0 {
            return 1.0;
        }
        rounding::widen(self.angle())
    }

    // The distance of sparse vectors with these sums.
    pub(crate) fn sparse_distance(self) -> f64
        ensures { result ≡ sparse_cosine (products32 self) }
    {
        if self.norm1 == 0.0 {
            return 0.0 / 0.0;
        }
        if self.norm2 == 0.0 {
            return 0.0 / 0.0;
        }
        rounding::widen(self.angle())
    }
}

impl CosSums64 {
    pub(crate) fn new() -> Self
        ensures { products64 result ≡ no_products }
    {
        Self {
            dot: 0.0,
            norm1: 0.0,
            norm2: 0.0,
        }
    }

    // One pair more.
    pub(crate) fn step(self, x: f64, y: f64) -> Self
        ensures { products64 result ≡ products_with binary64 (products64 self) x y }
    {
        Self {
            dot: self.dot + x * y,
            norm1: self.norm1 + x * x,
            norm2: self.norm2 + y * y,
        }
    }

    fn angle(self) -> f64
        ensures { result ≡ angle binary64 (products64 self) }
    {
        let product = self.norm1 * self.norm2;
        1.0 - self.dot / rounding::root64(product)
    }

    // The distance of dense vectors with these sums.
    pub(crate) fn distance(self) -> f64
        ensures { result ≡ dense_cosine binary64 (products64 self) }
    {
        if self.norm1 == 0.0 {
            if self.norm2 == 0.0 {
                return 0.0;
            }
        }
        if self.dot == 0.0 {
            return 1.0;
        }
        self.angle()
    }
}
