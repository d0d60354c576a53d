// A session: for each attribute four words, the pairs of it that the rules of a request may read. Opened once for a request.
#![tactic(auto)]

ghost use Rattle.std.specs.Prelude.{◌≡◌, ◌<◌, ◌≤◌, length, ◌&&◌};
ghost use Rattle.bits.specs.Bits.{member, Numbers};
ghost use Rattle.codes.specs.Enums.{told};
ghost use Rattle.rows.specs.Rows.{masked};
ghost use Rattle.session.specs.Words.{holder_for, in_table, opened_pair, OpenedFirst, WordsWritten, held_in, unheld_in};

use codes::Source;

// Whose request it is, about which object and with which attributes activated, on the rows of attributes and the table of a book.
#[derive(Clone, Copy)]
pub struct Activation<'a> {
    pub attributes: &'a [u64; 256],
    pub table: &'a [u64],
    pub user: usize,
    pub object: usize,
    pub mask: u32,
}

// Writes the words of attribute k one by one, which is quicker for so few than `copy_from_slice`.
fn write(session: &mut [u64; 128], k: usize, words: [u64; 4])
    requires { k < 32 }
    ensures { WordsWritten session.old k (member words) session.new }
{
    for (i, word) in words.iter().enumerate() {
        session[4 * k + i] = *word;
    }
}

impl Activation<'_> {
    // The holder whose set the names of attribute k read: the user if the attribute is activated, the object or admin.
    #[tactic(auto, unfolding(crate::specs::Words::holder_for))]
    fn holder_for(&self, k: usize) -> Option<usize>
        requires { k < 32 }
        ensures { result ≡ told (holder_for self.now.attributes.now self.now.user self.now.object self.now.mask k) }
    {
        let source = self.attributes[8 * k];
        if source == Source::User as u64 {
            bits::has(u64::from(self.mask), k).then_some(self.user)
        } else if source == Source::Object as u64 {
            Some(self.object)
        } else {
            (source == Source::Admin as u64).then_some(0)
        }
    }

    // The pairs of attribute k that a holder has.
    fn words_of(&self, holder: usize, k: usize) -> [u64; 4]
        requires { k < 32 }
        ensures { Numbers 256 result (λ p. in_table self.now.table.now holder p && masked self.now.attributes.now k p) }
    {
        if self.table.len() / 4 <= holder {
            return [0; 4];
        }
        std::array::from_fn(|i| self.table[4 * holder + i] & self.attributes[8 * k + 4 + i])
    }

    // Opens the session: the words of the first `count` attributes, which are those declared.
    pub fn open(&self, count: usize, session: &mut [u64; 128])
        requires { count ≤ 32 }
        ensures { OpenedFirst self.now.attributes.now self.now.table.now self.now.user self.now.object self.now.mask count session.old session.new }
    {
        for k in 0..count {
            write(session, k, self.opened(k));
        }
    }

    // The words of attribute k.
    fn opened(&self, k: usize) -> [u64; 4]
        requires { k < 32 }
        ensures { Numbers 256 result (λ p. opened_pair self.now.attributes.now self.now.table.now self.now.user self.now.object self.now.mask k p) }
    {
        match self.holder_for(k) {
            Some(holder) => self.words_of(holder, k),
            None => [0; 4],
        }
    }

    // Whether attribute k is a user attribute of which the user has a pair.
    fn is_held(&self, k: usize) -> bool
        requires { k < 32 }
        ensures { result ≡ held_in self.now.attributes.now self.now.table.now self.now.user k }
    {
        self.attributes[8 * k] == Source::User as u64
            && bits::differs(&self.words_of(self.user, k), &[0; 4])
    }

    // "17: activated bit that is no user attribute held by that user": read off the table, so that a refused request opens no session. The loop takes
    // the bits that are set alone, which are few; a chain over all 32 would look at each.
    pub fn unheld(&self) -> bool
        ensures { result ≡ unheld_in self.now.attributes.now self.now.table.now self.now.user self.now.mask }
    {
        let mut left = u64::from(self.mask);
        while left != 0 {
            let k = bits::lowest(left);
            if !self.is_held(k) {
                return true;
            }
            left = bits::without(left, k);
        }
        false
    }
}
