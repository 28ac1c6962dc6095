//! The least set that holds what it begins with, and all that its members bring.
ghost use Rattle.std.specs.Prelude.{◌≡◌, ◌<◌, ◌≤◌, ◌↔◌, ℕ, List, All, IsTrue};
ghost use Rattle.rel_travel.specs.Followed.{IsFollowed};
ghost use Rattle.rel_travel.specs.Growing.{IsGrownBy};
ghost use Rattle.ecs_model.specs.Reach.{IsLeast, IsReachedFrom};

use crate::found::Found;
use std::alloc::Allocator;

/// What an entity brings.
pub trait Rule {
    ghost use Rattle.std.specs.Prelude.{List, ℕ};

    ghost next: { Self → ℕ → List ℕ };

    /// Adds what the entity brings, in any order, each once, but for what was found before.
    fn follow<A: Allocator>(&self, index: u32, found: &mut Found<A>)
        requires { All (λ y. y < found.old.size) (next self.now index) }
        ensures size { found.new.size ≡ found.old.size }
        ensures grown { IsGrownBy (next self.now index) found.old.items found.new.items };
}

/// Adds all that the found entities bring, and what that brings, and so on.
///
/// Each entity is followed once. It takes no memory.
pub fn gather_found<R: Rule, A: Allocator>(rule: &R, found: &mut Found<A>)
    requires { (x : ℕ) → All (λ y. y < found.old.size) (R.next rule.now x) }
    ensures size { found.new.size ≡ found.old.size }
    ensures least { IsLeast (R.next rule.now) found.old.items found.new.items }
{
    let mut done = 0;
    while done < found.len() {
        rule.follow(found.at(done), found);
        done += 1;
    }
}

/// Whether one is among the found entities, what they bring, what that brings, and so on.
///
/// As `gather_found`, it follows each entity once, but it ends as soon as the one is found.
pub fn gather_until<R: Rule, A: Allocator>(rule: &R, index: u32, found: &mut Found<A>) -> bool
    requires closed { (x : ℕ) → All (λ y. y < found.old.size) (R.next rule.now x) }
    requires inside { index < found.old.size }
    ensures size { found.new.size ≡ found.old.size }
    ensures reached { IsTrue result ↔ IsReachedFrom (R.next rule.now) found.old.items index }
{
    let mut done = 0;
    go_on_until(rule, index, &mut done, found)
}

/// The same, where the first so many of the found have brought all that they bring. So a search goes on from where it
/// ended.
pub fn go_on_until<R: Rule, A: Allocator>(
    rule: &R,
    index: u32,
    done: &mut usize,
    found: &mut Found<A>,
) -> bool
    requires closed { (x : ℕ) → All (λ y. y < found.old.size) (R.next rule.now x) }
    requires inside { index < found.old.size }
    ensures size { found.new.size ≡ found.old.size }
    ensures grows { done.old ≤ done.new }
    ensures followed { (start : List ℕ) → IsFollowed (R.next rule.now) start found.old.items done.old
        → IsFollowed (R.next rule.now) start found.new.items done.new }
    ensures reached { (start : List ℕ) → IsFollowed (R.next rule.now) start found.old.items done.old
        → (IsTrue result ↔ IsReachedFrom (R.next rule.now) start index) }
{
    while !found.is_found(index) {
        if found.len() <= *done {
            return false;
        }
        rule.follow(found.at(*done), found);
        *done += 1;
    }
    true
}
