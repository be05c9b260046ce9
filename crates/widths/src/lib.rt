// A number in another width, where the language's own conversions do not reach: a cast that is proved to lose nothing, with the number that comes of it.
#![tactic(auto)]

ghost use Rattle.std.specs.Prelude.{◌≡◌, ◌<◌, ◌^◌, ℕ, Bool, true, T, pos, nat_abs};
ghost use Rattle.std.specs.Int.Signed.{non_neg};

// An integer type that numbers go down to from `usize`.
pub trait Width {
    // The value that a number is, and the first number that is none.
    ghost put: { ℕ → Self };

    ghost limit: { ℕ };

    fn of(n: usize) -> Self
        requires { n < limit }
        ensures { result ≡ put n };

    // No two numbers are one value.
    ghost one: { (m n : ℕ) → put m ≡ put n → m ≡ n };
}

impl Width for u8 {
    ghost put = { λ n. n };

    ghost limit = { 2 ^ 8 };

    ghost one = { λ m n e. e };

    fn of(n: usize) -> u8 {
        n as u8
    }
}

impl Width for u16 {
    ghost put = { λ n. n };

    ghost limit = { 2 ^ 16 };

    ghost one = { λ m n e. e };

    fn of(n: usize) -> u16 {
        n as u16
    }
}

impl Width for u32 {
    ghost put = { λ n. n };

    ghost limit = { 2 ^ 32 };

    ghost one = { λ m n e. e };

    fn of(n: usize) -> u32 {
        n as u32
    }
}

impl Width for i32 {
    ghost use mathlib.Core.Path.{ap};

    ghost put = { pos };

    ghost limit = { 2 ^ 31 };

    ghost one = { λ m n e. ap nat_abs e };

    fn of(n: usize) -> i32 {
        n as i32
    }
}

impl Width for i64 {
    ghost use mathlib.Core.Path.{ap};

    ghost put = { pos };

    ghost limit = { 2 ^ 63 };

    ghost one = { λ m n e. ap nat_abs e };

    fn of(n: usize) -> i64 {
        n as i64
    }
}

// An integer type whose values go over to `usize`, but for those below zero.
pub trait Number {
    // Whether a value is a number without a sign, and which.
    ghost whole: { Self → Bool };

    ghost held: { Self → ℕ };

    fn number(self) -> usize
        requires { T (whole self) }
        ensures { result ≡ held self };
}

impl Number for u32 {
    ghost whole = { λ _. true };

    ghost held = { λ n. n };

    fn number(self) -> usize {
        self as usize
    }
}

impl Number for i32 {
    ghost whole = { non_neg };

    ghost held = { nat_abs };

    fn number(self) -> usize {
        self.unsigned_abs() as usize
    }
}

impl Number for isize {
    ghost whole = { non_neg };

    ghost held = { nat_abs };

    fn number(self) -> usize {
        isize::unsigned_abs(self)
    }
}
