use byte_cursor::WordList;
use collide::Pair;

/// What an audit finds.
#[derive(Drop)]
pub enum Finding {
    /// The entry says the truth of the image's uncut run on these input words, the words of the entry's seals.
    Sound { words: WordList },
    /// These two strings have one digest. The left one is the receipt's, the right one the image's.
    Collision(Pair),
}
