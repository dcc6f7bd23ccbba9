// Five of something, one for each operand that a line may have. By name, as `filled` and `queued` speak of them: an array would
// have each say besides that it has five.
ghost use Rattle.std.specs.Prelude.{◌≡◌};

#[derive(Clone, Copy)]
pub struct Five<T> {
    pub a: T,
    pub b: T,
    pub c: T,
    pub d: T,
    pub e: T,
}

impl<T: Copy> Five<T> {
    // One more in front, and the last goes.
    pub fn push(self, first: T) -> Five<T>
        ensures { result ≡ record { a = first; b = self.a; c = self.b; d = self.c; e = self.d } }
    {
        Five {
            a: first,
            b: self.a,
            c: self.b,
            d: self.c,
            e: self.d,
        }
    }

    // The first goes, and one more comes last.
    pub fn shift(self, last: T) -> Five<T>
        ensures { result ≡ record { a = self.b; b = self.c; c = self.d; d = self.e; e = last } }
    {
        Five {
            a: self.b,
            b: self.c,
            c: self.d,
            d: self.e,
            e: last,
        }
    }
}
