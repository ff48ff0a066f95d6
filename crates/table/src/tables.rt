ghost use Rattle.std.specs.Prelude.{◌≡◌, ◌≤◌, length};

use std::alloc::AllocError;

// The table holds N rows, and takes no row more.
#[derive(Clone, Copy, PartialEq, Eq, Debug)]
pub struct Full;

// The first `count` of `items` are the rows; the others are fillers. A length beside an array, since a gauge has no
// heap for a `Vec`, and an `ArrayVec` is not `Copy`. No `impl Model`, since the fillers of a `Copy` type would have to
// follow from the rows.
#[derive(Copy)]
pub struct Table<T, const N: usize> {
    items: [T; N],
    count: usize,
    ghost within: { count ≤ N },
    ghost whole: { length items ≡ N },
}

// By hand, since no derive of `Clone` is had where a generic struct has ghost fields.
impl<T: Copy, const N: usize> Clone for Table<T, N> {
    ghost is_clone = { λ x y. y ≡ x };

    ghost is_infallible = { λ _. Unit {0} };

    fn clone(&self) -> Result<Self, AllocError> {
        Ok(*self)
    }
}

impl<T: Copy, const N: usize> Table<T, N> {
    ghost use Rattle.std.specs.Prelude.{[], is_some, IfSome, nat_lt, slice_index_or};
    ghost use Rattle.std.specs.Borrow.{follows_if, sem};
    ghost use Rattle.std.specs.Fn.{CalledAt, FnOnceReturnsAtMut};
    ghost use Rattle.std.specs.List.{AllZip, remove};
    ghost use Rattle.std.specs.List.Retain.{IsFiltered};
    ghost use Rattle.std.specs.Option.{ghost_name_of as name_of};
    ghost use Rattle.table.specs.Pushing.{Pushes};
    ghost use Rattle.table.specs.Rows.{rows, altered};
    ghost use Rattle.table.specs.contracts.tables.Table.{the_row};

    // A table of no rows; the filler is never seen.
    pub fn new(filler: T) -> Self
        ensures { rows result ≡ [] }
    {
        Table {
            items: [filler; N],
            count: 0,
        }
    }

    pub fn len(&self) -> usize
        ensures { result ≡ length (rows self.now) }
    {
        self.as_slice().len()
    }

    pub fn as_slice(&self) -> &[T]
        ensures value { result.now ≡ rows self.now }
    {
        let all = &self.items[..];
        &all[0..self.count]
    }

    // One row more, if there is room for it.
    pub fn push(&mut self, row: T) -> Result<(), Full>
        ensures { Pushes N row (rows self.old) (rows self.new) result }
    {
        let at = self.count;
        if at >= N {
            return Err(Full);
        }
        self.items[at] = row;
        self.count = at + 1;
        Ok(())
    }

    // Lends the row at the place, if there is one.
    pub fn get_mut(&mut self, i: usize) -> Option<&mut T>
        ensures* lent { sem 𝓛 (follows_if (the_row T.row N.row) T.row self.entry.ghost_name (name_of result) (altered self.old i) self.old) }
        ensures there { is_some result ≡ nat_lt i (length (rows self.old)) }
        ensures value { IfSome result (λ x. x.now ≡ slice_index_or (rows self.old) i x.now) }
    {
        if i < self.count {
            Some(&mut self.items[i])
        } else {
            None
        }
    }

    // Removes the row at the place, if there is one; later rows move up.
    pub fn remove(&mut self, i: usize)
        ensures { rows self.new ≡ remove (rows self.old) i }
    {
        let count = self.count;
        if i < count {
            let all = &mut self.items[..];
            all[i..count].rotate_left(1);
            self.count = count - 1;
        }
    }

    // Keeps the rows of which the test says `true`; they move up. By places, since a copy to go over would cost as much as N rows.
    pub fn retain<F: FnMut(&T) -> bool>(&mut self, mut keep: F)
        requires { F.IsAlwaysCallable keep }
        ensures { IsFiltered (CalledAt F.FnMut) keep (rows self.old) (rows self.new) }
    {
        let mut next = 0;
        for i in 0..self.count {
            let row = self.items[i];
            if keep(&row) {
                self.items[next] = row;
                next += 1;
            }
        }
        self.count = next;
    }

    // Changes each row in its place. A closure, since no proof is found of a table that lends all its rows at once: `whole`
    // would have to hold of whatever list comes back.
    pub fn update<F: Fn(&mut T)>(&mut self, change: F)
        requires { F.IsAlwaysCallable change }
        ensures { AllZip (λ x y. FnOnceReturnsAtMut F.FnOnce change x tt y) (rows self.old) (rows self.new) }
    {
        let count = self.count;
        let all = &mut self.items[..];
        for row in all[0..count].iter_mut() {
            change(row);
        }
    }
}
