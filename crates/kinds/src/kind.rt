// A kind of item: the states of its items, and the number that stands for each.
ghost use Rattle.std.specs.Prelude.{◌≡◌, ℕ, ◌^◌, ◌<◌, ◌≤◌};
ghost use Rattle.kinds.specs.Lawful.{LawfulKind};

pub trait Kind: Copy {
    // The codes are the numbers below this.
    const COUNT: u32;

    // The state of an item that nobody has changed yet.
    const REST: Self;

    // The same two constants, for clauses.
    ghost COUNT: { ℕ };

    ghost REST: { Self };

    // Which values of the type are states.
    ghost state: { Self → Type 0 };

    // What `code` and `from_code` answer, also at a value that is no state and a number that is no code.
    ghost coded: { Self → ℕ };

    ghost decoded: { ℕ → Self };

    fn code(self) -> u32
        ensures { result ≡ coded self };

    fn from_code(code: u32) -> Self
        ensures { result ≡ decoded code };

    ghost code_gives_state_back: { (s : Self) → state s → decoded (coded s) ≡ s };

    ghost state_gives_code_back: { (n : ℕ) → n < COUNT → coded (decoded n) ≡ n };

    ghost code_is_below_count: { (s : Self) → state s → coded s < COUNT };

    ghost code_below_count_gives_state: { (n : ℕ) → n < COUNT → state (decoded n) };

    ghost rest_is_state: { state REST };

    ghost two_codes_at_least: { 2 ≤ COUNT };

    ghost count_fits: { COUNT < 2 ^ 32 };
}

// Every kind is lawful: the trait's laws as one fact. Each kind's theorem stands beside it in a function of its own, since a contract is where
// a theorem is stated.
pub fn kind_is_lawful<K: Kind>()
    ensures { LawfulKind K.state K.coded K.decoded K.COUNT K.REST }
{}
