ghost use Rattle.std.specs.Prelude.{◌≡◌, ℕ};
ghost use Rattle.table.specs.Keys.{found, apart};

// A row that is known by a number. A trait and no closure, since a row has one key, which contracts name.
pub trait Keyed: Copy {
    ghost keyed: { Self → ℕ };

    fn key(&self) -> u16
        ensures { result ≡ keyed self.now };
}

// The first row that has the key.
pub fn find<K: Keyed>(rows: &[K], key: u16) -> Option<K>
    ensures { result ≡ found K.Keyed.keyed rows.now key }
{
    rows.iter().find(|row| row.key() == key).copied()
}

// Whether no two rows have one key.
pub fn are_apart<K: Keyed>(rows: &[K]) -> bool
    ensures { result ≡ apart K.Keyed.keyed rows.now }
{
    let mut left = rows;
    while let [row, rest @ ..] = left {
        if find(rest, row.key()).is_some() {
            return false;
        }
        left = rest;
    }
    true
}
