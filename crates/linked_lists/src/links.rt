//! What stands beside each number, in rings.
ghost use Rattle.std.specs.Prelude.{◌≡◌, ◌<◌, ◌-◌, ◌==◌, if◌then◌else◌, length};
ghost use Rattle.linked_lists.specs.Links.{next_at, number_below, previous_at, IsJoined};

use arrayvec::ArrayVec;

/// Which stand beside a number, or an end, in its ring.
#[derive(Clone, Copy, Default)]
pub(crate) struct Link {
    /// The one before it.
    pub(crate) previous: u16,
    /// The one after it.
    pub(crate) next: u16,
}

/// The number before a number, round a ring of the numbers up to the last.
pub(crate) fn before(number: u16, last: u16) -> u16
    ensures { result ≡ (if number == 0 then last else number - 1) }
{
    if number == 0 { last } else { number - 1 }
}

/// Which one is after another.
#[inline]
pub(crate) fn next_of<const LINKS: usize>(links: &ArrayVec<Link, LINKS>, at: u16) -> u16
    requires { at < length links.now.items }
    ensures { result ≡ next_at links.now.items at }
{
    links[usize::from(at)].next
}

/// The number after one, none where an end stands there, which is no number below the bound.
#[inline]
pub(crate) fn number_after<const LINKS: usize>(
    links: &ArrayVec<Link, LINKS>,
    at: u16,
    numbers: u16,
) -> Option<u16>
    requires { at < length links.now.items }
    ensures { result ≡ number_below numbers (next_at links.now.items at) }
{
    let next = next_of(links, at);
    if next < numbers { Some(next) } else { None }
}

/// Which one is before another.
#[inline]
pub(crate) fn previous_of<const LINKS: usize>(links: &ArrayVec<Link, LINKS>, at: u16) -> u16
    requires { at < length links.now.items }
    ensures { result ≡ previous_at links.now.items at }
{
    links[usize::from(at)].previous
}

/// Puts one right before another.
#[inline]
pub(crate) fn join<const LINKS: usize>(links: &mut ArrayVec<Link, LINKS>, first: u16, second: u16)
    requires first { first < length links.old.items }
    requires second { second < length links.old.items }
    ensures { IsJoined links.old.items first second links.new.items }
{
    links[usize::from(first)].next = second;
    links[usize::from(second)].previous = first;
}
