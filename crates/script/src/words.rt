// The words that scripts use, and what each means.
ghost use Rattle.std.specs.Prelude.{◌≡◌, ℕ, List};
ghost use Rattle.script.specs.Reading.{meant};
ghost use Rattle.script.specs.Table.{class_word, all_classes, mode_word, all_modes, board_word, all_boards, rule_word, all_rules, op_word, all_ops};

use calls::{BoardKind, Class, Mode, RuleName};

// The word that names a call.
#[derive(Clone, Copy, Debug, PartialEq, Eq)]
pub enum Op {
    Admit,
    Revoke,
    Begin,
    Read,
    Write,
    Commit,
    Abandon,
    Show,
}

// A type whose values are the words of a list.
pub trait Listed: Copy + 'static {
    ghost spelled: { Self → List ℕ };

    ghost every: { List Self };

    // Every word of the list.
    fn all() -> &'static [Self]
        ensures { result.now ≡ every };

    // How the word is written: bytes, and no `Display`, since a line need not be text.
    fn spelling(&self) -> &'static [u8]
        ensures { result.now ≡ spelled self.now };
}

// The word of the list that is spelled so.
pub(crate) fn meant<W: Listed>(text: &[u8]) -> Option<W>
    ensures { result ≡ meant W.Listed.spelled W.Listed.every text.now }
{
    W::all()
        .iter()
        .copied()
        .find(|word| word.spelling() == text)
}

impl Listed for Op {
    ghost spelled = { op_word };

    ghost every = { all_ops };

    fn all() -> &'static [Op] {
        &[
            Op::Admit,
            Op::Revoke,
            Op::Begin,
            Op::Read,
            Op::Write,
            Op::Commit,
            Op::Abandon,
            Op::Show,
        ]
    }

    fn spelling(&self) -> &'static [u8] {
        match self {
            Op::Admit => b"admit",
            Op::Revoke => b"revoke",
            Op::Begin => b"begin",
            Op::Read => b"read",
            Op::Write => b"write",
            Op::Commit => b"commit",
            Op::Abandon => b"abandon",
            Op::Show => b"show",
        }
    }
}

impl Listed for Class {
    ghost spelled = { class_word };

    ghost every = { all_classes };

    fn all() -> &'static [Class] {
        &[Class::Member, Class::Guest]
    }

    fn spelling(&self) -> &'static [u8] {
        match self {
            Class::Member => b"member",
            Class::Guest => b"guest",
        }
    }
}

impl Listed for Mode {
    ghost spelled = { mode_word };

    ghost every = { all_modes };

    fn all() -> &'static [Mode] {
        &[Mode::Reader, Mode::Update]
    }

    fn spelling(&self) -> &'static [u8] {
        match self {
            Mode::Reader => b"reader",
            Mode::Update => b"update",
        }
    }
}

impl Listed for BoardKind {
    ghost spelled = { board_word };

    ghost every = { all_boards };

    fn all() -> &'static [BoardKind] {
        &[BoardKind::Drive, BoardKind::Switch]
    }

    fn spelling(&self) -> &'static [u8] {
        match self {
            BoardKind::Drive => b"drive",
            BoardKind::Switch => b"switch",
        }
    }
}

impl Listed for RuleName {
    ghost spelled = { rule_word };

    ghost every = { all_rules };

    fn all() -> &'static [RuleName] {
        &[
            RuleName::Now,
            RuleName::Warp,
            RuleName::HomeNow,
            RuleName::HomeWarp,
        ]
    }

    fn spelling(&self) -> &'static [u8] {
        match self {
            RuleName::Now => b"now",
            RuleName::Warp => b"warp",
            RuleName::HomeNow => b"home-now",
            RuleName::HomeWarp => b"home-warp",
        }
    }
}
