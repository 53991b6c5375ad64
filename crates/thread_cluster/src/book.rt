ghost use Rattle.std.specs.Prelude.{◌≡◌, ◌⊎◌, ℕ, ◌<◌, ◌≤◌, length, slice_index_or, IsTrue};
ghost use Rattle.thread_cluster.specs.Books.{IsBlank, AreBlank, IsSamePage, IsSameBook, HasRoom, HaveRoom, IsWritten, AreWritten, counts_of};

use crate::member::Member;
use crate::places::Identities;
use base_vectors::Id;
use std::alloc::Global;

/// In numbers, by place: how many messages a place posted to each other one, and how many of theirs it heard.
#[derive(Drop)]
pub struct Counts {
    pub posted: [usize; 8],
    pub heard: [usize; 8],
}

/// What a place posted to a peer and heard of it.
#[derive(Drop)]
pub struct Page {
    /// The peer, if there is one.
    pub id: Option<Id>,
    /// How many messages were posted to it.
    pub posted: usize,
    /// The entries that posted them: of each its index in the history, and how many messages were posted before it.
    pub postings: Vec<(usize, usize)>,
    /// How many messages of the peer were heard.
    pub heard: usize,
}

impl Page {
    /// A page of a history without entries.
    fn new(alloc: Global, id: Option<Id>) -> Page
        ensures { IsBlank id result }
    {
        Page {
            id,
            posted: 0,
            postings: Vec::new(alloc),
            heard: 0,
        }
    }

    /// Takes the memory for one posting more, and tells whether it was there.
    fn make_room(&mut self) -> bool
        ensures same { IsSamePage self.old self.new }
        ensures room { IsTrue result → HasRoom self.new }
    {
        self.postings.reserve(1).is_ok()
    }

    /// Is told what the entry of an index put out, and whether it took a message of the peer.
    fn write<M: Member>(&mut self, index: usize, takes: bool, output: &M::Output)
        requires { HasRoom self.old }
        ensures { IsWritten M.posted index takes output.now self.old self.new }
    {
        let one = if takes { 1 } else { 0 };
        self.heard = self.heard.saturating_add(one);
        let Some(id) = self.id else {
            return;
        };
        let count = M::count_posted(output, id);
        if count == 0 {
            return;
        }
        self.postings.push_reserved((index, self.posted));
        self.posted = self.posted.saturating_add(count);
    }
}

/// The post book of a place: a page for each place.
#[derive(Drop)]
pub struct Book {
    pub p0: Page,
    pub p1: Page,
    pub p2: Page,
    pub p3: Page,
    pub p4: Page,
    pub p5: Page,
    pub p6: Page,
    pub p7: Page,
}

impl Book {
    /// The book of a history without entries.
    pub(crate) fn new(alloc: Global, ids: &Identities) -> Book
        ensures { AreBlank ids.now result }
    {
        Book {
            p0: Page::new(alloc, ids.p0),
            p1: Page::new(alloc, ids.p1),
            p2: Page::new(alloc, ids.p2),
            p3: Page::new(alloc, ids.p3),
            p4: Page::new(alloc, ids.p4),
            p5: Page::new(alloc, ids.p5),
            p6: Page::new(alloc, ids.p6),
            p7: Page::new(alloc, ids.p7),
        }
    }

    /// Takes the memory for one entry more, and tells whether it was there.
    pub(crate) fn make_room(&mut self) -> bool
        ensures same { IsSameBook self.old self.new }
        ensures room { IsTrue result → HaveRoom self.new }
    {
        if !self.p0.make_room() {
            return false;
        }
        if !self.p1.make_room() {
            return false;
        }
        if !self.p2.make_room() {
            return false;
        }
        if !self.p3.make_room() {
            return false;
        }
        if !self.p4.make_room() {
            return false;
        }
        if !self.p5.make_room() {
            return false;
        }
        if !self.p6.make_room() {
            return false;
        }
        self.p7.make_room()
    }

    /// Is told what the entry of an index put out, and of the member at which place it took a message: 8 where of none.
    pub(crate) fn write<M: Member>(&mut self, index: usize, from: usize, output: &M::Output)
        requires { HaveRoom self.old }
        ensures { AreWritten M.posted index from output.now self.old self.new }
    {
        self.p0.write::<M>(index, from == 0, output);
        self.p1.write::<M>(index, from == 1, output);
        self.p2.write::<M>(index, from == 2, output);
        self.p3.write::<M>(index, from == 3, output);
        self.p4.write::<M>(index, from == 4, output);
        self.p5.write::<M>(index, from == 5, output);
        self.p6.write::<M>(index, from == 6, output);
        self.p7.write::<M>(index, from == 7, output);
    }

    /// The numbers of all pages.
    pub(crate) fn counts(&self) -> Counts
        ensures { result ≡ counts_of self.now }
    {
        Counts {
            posted: [
                self.p0.posted,
                self.p1.posted,
                self.p2.posted,
                self.p3.posted,
                self.p4.posted,
                self.p5.posted,
                self.p6.posted,
                self.p7.posted,
            ],
            heard: [
                self.p0.heard,
                self.p1.heard,
                self.p2.heard,
                self.p3.heard,
                self.p4.heard,
                self.p5.heard,
                self.p6.heard,
                self.p7.heard,
            ],
        }
    }

    /// The page of a place.
    pub(crate) fn page(&self, place: usize) -> &Page
        requires { place < 8 }
        ensures p0 { place ≡ 0 → result.now ≡ self.now.p0 }
        ensures p1 { place ≡ 1 → result.now ≡ self.now.p1 }
        ensures p2 { place ≡ 2 → result.now ≡ self.now.p2 }
        ensures p3 { place ≡ 3 → result.now ≡ self.now.p3 }
        ensures p4 { place ≡ 4 → result.now ≡ self.now.p4 }
        ensures p5 { place ≡ 5 → result.now ≡ self.now.p5 }
        ensures p6 { place ≡ 6 → result.now ≡ self.now.p6 }
        ensures p7 { place ≡ 7 → result.now ≡ self.now.p7 }
    {
        match place {
            0 => &self.p0,
            1 => &self.p1,
            2 => &self.p2,
            3 => &self.p3,
            4 => &self.p4,
            5 => &self.p5,
            6 => &self.p6,
            _ => &self.p7,
        }
    }
}

/// The first posting that may have the message of a number: the last one before which no more messages were posted.
pub(crate) fn first_posting(postings: &[(usize, usize)], number: usize) -> usize
    ensures first { (result ≡ 0) ⊎ ((result < length postings.now) × ((slice_index_or postings.now result (0, 0)).1 ≤ number)) }
    ensures later { (k : ℕ) → result < k → k < length postings.now → number < (slice_index_or postings.now k (0, 0)).1 }
{
    let mut first = postings.len();
    while first > 0 {
        first -= 1;
        let (_, before) = postings[first];
        if before <= number {
            return first;
        }
    }
    0
}
