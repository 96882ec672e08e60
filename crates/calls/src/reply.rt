// What a board replies to a call that it accepts.
ghost use Rattle.std.specs.Prelude.{◌≡◌};
ghost use Rattle.calls.specs.Numbers.{first, second};

#[derive(Clone, Copy, Debug, PartialEq, Eq)]
pub enum Reply {
    // Revoke, write and abandon have nothing to tell.
    Done,
    // Admit tells the new pass.
    Pass(u32),
    // Begin tells the transaction's start.
    Start(u32),
    // Read and show tell a code.
    Code(u32),
    // A granted commit tells its natural number and its place.
    Granted((u32, u32)),
}

impl Reply {
    // The first number of its answer line.
    pub fn first(&self) -> u32
        ensures { result ≡ first self.now }
    {
        match *self {
            Reply::Done => 0,
            Reply::Pass(pass) => pass,
            Reply::Start(start) => start,
            Reply::Code(code) => code,
            Reply::Granted((natural, _)) => natural,
        }
    }

    // The second number of its answer line.
    pub fn second(&self) -> u32
        ensures { result ≡ second self.now }
    {
        match *self {
            Reply::Granted((_, place)) => place,
            Reply::Done | Reply::Pass(_) | Reply::Start(_) | Reply::Code(_) => 0,
        }
    }
}
