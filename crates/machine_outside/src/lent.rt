// What is lent: outside results and context words.
ghost use Rattle.std.specs.Prelude.{◌≡◌, ◌-◌, length};
ghost use Rattle.std.specs.Iterator.{at_most};
ghost use Rattle.machine_outside.specs.Outside.{TakesWord, context_of};

use format::program::ContextKind;

// The outside results, and how many of them are used. No slice that gets shorter: the promises say that what is left is of the same words.
#[derive(Clone, Copy)]
pub struct Outside<'a> {
    pub words: &'a [u64],
    pub used: usize,
}

impl Iterator for Outside<'_> {
    type Item = u64;

    ghost next_gives = { λ old word new. TakesWord old new word };

    ghost remaining = { λ outside. at_most (length outside.words.now - outside.used) };

    fn next(&mut self) -> Option<u64> {
        let word = *self.words.get(self.used)?;
        self.used += 1;
        Some(word)
    }
}

// The three context words.
#[derive(Clone, Copy)]
pub struct Context {
    pub sender: u64,
    pub nonce: u64,
    pub block_number: u64,
}

impl Context {
    // The word of a kind.
    pub fn word(self, kind: ContextKind) -> u64
        ensures { result ≡ context_of kind self }
    {
        match kind {
            ContextKind::MsgSender => self.sender,
            ContextKind::MsgNonce => self.nonce,
            ContextKind::BlockNumber => self.block_number,
        }
    }
}
