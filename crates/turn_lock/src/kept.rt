//! What a value behind a turn says of itself.
ghost use Rattle.std.specs.Prelude.{◌≡◌, List, []};

/// A value that stands for lists of entries. It need not store them.
pub trait Kept {
    /// An entry. No value of it is made here.
    type Entry;

    /// What the value says of itself when entries are noted, which stands beside each of them. No value
    /// of it is made here.
    type Mark;

    /// What a turn is told of its value once, when it is made.
    type Key;

    /// What else must outlive a note. No value of it is made here.
    type Lasting;

    /// Whether the value, behind a turn that was told this key, stands for a list of entries, the
    /// added ones among them, and for a list of their marks.
    ghost stands: { Self.Key → Self → List Self.Entry → List Self.Mark → Type 0 };

    /// The entries that it has added since the last note.
    ghost added: { Self → List Self.Entry };

    /// The mark of entries that are noted now.
    ghost mark: { Self → Self.Mark };

    /// What else must outlive a note.
    ghost lasts: { Self → Self.Lasting };

    /// Learns that the added entries were noted. It takes no memory.
    fn noted(&mut self)
        ensures stands { (key : Self.Key) (log : List Self.Entry) (marks : List Self.Mark) →
            stands key self.old log marks → stands key self.new log marks }
        ensures added { added self.new ≡ [] }
        ensures lasts { lasts self.new ≡ lasts self.old };
}
