//! Lists that grow on an allocator, and are copied item by item.

ghost use Rattle.std.specs.Prelude.{◌≡◌, ◌<◌, ◌≤◌, List, [], ◌∷◌, ◌++◌, length, take, IfOk, OnOk, OnErr, slice_set};
ghost use Rattle.std.specs.Str.{bytes_eq};

use crate::memory::Memory;
use crate::point::Point;
use crate::span::Span;
use std::alloc::Global;
use std::marker::Model;

/// Whether two lists of code points are the same.
pub fn same_points(a: &[Point], b: &[Point]) -> bool
    ensures { result ≡ bytes_eq a.now b.now }
{
    a == b
}

/// A value that can be copied if memory suffices.
pub trait Copied: Sized {
    /// A copy of the value.
    ///
    /// - `Memory`: memory ran out.
    fn copied(&self, alloc: Global) -> Result<Self, Memory>
        ensures { IfOk result (λ copy. copy ≡ self.now) };
}

impl Copied for u8 {
    fn copied(&self, _alloc: Global) -> Result<u8, Memory> {
        Ok(*self)
    }
}

impl Copied for Point {
    fn copied(&self, _alloc: Global) -> Result<Point, Memory> {
        Ok(*self)
    }
}

impl Copied for Span {
    fn copied(&self, _alloc: Global) -> Result<Span, Memory> {
        Ok(*self)
    }
}

impl<T: Copied + Drop> Copied for ListOf<T> {
    fn copied(&self, alloc: Global) -> Result<ListOf<T>, Memory> {
        self.copy(alloc)
    }
}

/// A list. It grows on the allocator that it was made with, and contracts see the list of its items.
#[derive(Debug, Drop)]
pub struct ListOf<T> {
    items: Vec<T>,
}

/// Code points.
pub type Points = ListOf<Point>;

/// Spans of code points.
pub type Spans = ListOf<Span>;

/// Bytes.
pub type Text = ListOf<u8>;

/// Texts.
pub type Texts = ListOf<Text>;

impl<T> Model for ListOf<T> {
    ghost Value = { List T };

    ghost view = { λ l. l.items.items };
}

impl<T> ListOf<T> {
    /// The empty list. It takes no memory.
    pub fn new(alloc: Global) -> ListOf<T>
        ensures { result ≡ [] }
    {
        ListOf {
            items: Vec::new(alloc),
        }
    }

    /// The list of the items of a vector. It takes no memory.
    pub fn from_vec(items: Vec<T>) -> ListOf<T>
        ensures { result ≡ items.items }
    {
        ListOf { items }
    }

    /// The list of these items.
    ///
    /// - `Memory`: memory ran out.
    pub fn of(alloc: Global, items: &[T]) -> Result<ListOf<T>, Memory>
    where
        T: Copy,
        ensures { IfOk result (λ list. list ≡ items.now) }
    {
        Ok(ListOf {
            items: Vec::from_slice(alloc, items)?,
        })
    }

    /// How many items there are.
    pub fn len(&self) -> usize
        ensures { result ≡ length self.now }
    {
        self.items.len()
    }

    /// The items in order.
    pub fn as_slice(&self) -> &[T]
        ensures { result.now ≡ self.now }
    {
        self.items.as_slice()
    }

    /// Puts an item at the end.
    ///
    /// - `Memory`: memory ran out. The list stays as it was, and the item is dropped.
    pub fn push(&mut self, item: T) -> Result<(), Memory>
    where
        T: Drop,
        ensures ok { OnOk result (self.new ≡ self.old ++ item ∷ []) }
        ensures err { OnErr result (self.new ≡ self.old) }
    {
        self.items.push(item)?;
        Ok(())
    }

    /// Puts copies of the items at the end.
    ///
    /// - `Memory`: memory ran out. The list stays as it was.
    pub fn append(&mut self, items: &[T]) -> Result<(), Memory>
    where
        T: Copy,
        ensures ok { OnOk result (self.new ≡ self.old ++ items.now) }
        ensures err { OnErr result (self.new ≡ self.old) }
    {
        self.items.extend_from_slice(items)?;
        Ok(())
    }

    /// A copy of the list, on this allocator.
    ///
    /// - `Memory`: memory ran out.
    pub fn copy(&self, alloc: Global) -> Result<ListOf<T>, Memory>
    where
        T: Copied + Drop,
        ensures { IfOk result (λ copy. copy ≡ self.now) }
    {
        let mut items = Vec::with_capacity(alloc, self.items.len())?;
        for item in self.as_slice() {
            items.push(item.copied(alloc)?)?;
        }
        Ok(ListOf { items })
    }

    /// Puts an item in the place of the one at `at`, which is counted from 0. It takes no memory.
    pub fn replace(&mut self, at: usize, item: T)
    where
        T: Drop,
        requires { at < length self.old }
        ensures { self.new ≡ slice_set self.old at item }
    {
        self.items[at] = item;
    }

    /// Keeps the first `len` items, or all if there are fewer. It takes no memory.
    pub fn truncate(&mut self, len: usize)
    where
        T: Drop,
        ensures { self.new ≡ take len self.old }
    {
        self.items.truncate(len);
    }
}
