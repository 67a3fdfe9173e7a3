ghost use Rattle.std.specs.Prelude.{◌≡◌, ◌+◌, ◌<◌, ◌≤◌, true, [], ◌++◌, length, drop, nat_le, slice_index};
ghost use Rattle.queue.specs.Waiting.{waiting, capacity};

use super::Queue;

// Lets the entries of `xs` wait, and says whether there was room for all.
fn push_all<T: Copy>(q: &mut Queue<T>, xs: &[T]) -> bool
    ensures all { result ≡ nat_le (length (waiting q.old) + length xs.now) (capacity q.old) }
    ensures after { result ≡ true → waiting q.new ≡ waiting q.old ++ xs.now }
{
    for x in xs {
        if !q.push(*x) {
            return false;
        }
    }
    true
}

// Takes all that waits out into the front of `out`, in order.
fn pop_all<T: Copy>(q: &mut Queue<T>, out: &mut [T]) -> usize
    requires { length (waiting q.old) ≤ length out.old }
    ensures count { result ≡ length (waiting q.old) }
    ensures none { waiting q.new ≡ [] }
    ensures out { out.new ≡ waiting q.old ++ drop result out.old }
{
    let mut n = 0;
    while let Some(x) = q.pop() {
        out[n] = x;
        n += 1;
    }
    n
}

// Sends `xs` through a queue over `buffer` into the front of `out`, if the buffer holds as many.
fn send<T: Copy>(buffer: &mut [T], xs: &[T], out: &mut [T]) -> bool
    requires { length xs.now ≤ length out.old }
    ensures fits { result ≡ nat_le (length xs.now) (length buffer.old) }
    ensures out { result ≡ true → out.new ≡ xs.now ++ drop (length xs.now) out.old }
{
    let mut q = Queue::over(buffer);
    if !push_all(&mut q, xs) {
        return false;
    }
    pop_all(&mut q, out);
    true
}

// Visits `start`, and after each number above 1 its half; the last one visited is the answer, and is left in the buffer.
fn last_half(buffer: &mut [u16], start: u16) -> u16
    ensures below { result ≤ start }
    ensures left { 0 < length buffer.old → slice_index buffer.new 0 ≡ result }
{
    let mut last = start;
    let mut q = Queue::over(buffer);
    q.push(start);
    while let Some(x) = q.pop() {
        last = x;
        if x > 1 {
            q.push(x / 2);
        }
    }
    if buffer.len() > 0 {
        buffer[0] = last;
    }
    last
}

#[test]
fn entries_leave_in_the_order_they_came(rt: HostRuntime) {
    let mut out = [0u16; 4];
    assert!(rt; send(&mut [9; 3], &[5, 6, 7], &mut out));
    assert_eq!(rt; out, [5, 6, 7, 0]);
    assert!(rt; !send(&mut [9; 2], &[5, 6, 7], &mut out));
}

#[test]
fn entries_wait_round_the_end(rt: HostRuntime) {
    let mut slots = [(0u16, 0u16); 2];
    let mut q = Queue::over(&mut slots);
    assert!(rt; q.push((1, 2)) && q.push((3, 4)) && !q.push((5, 6)));
    assert_eq!(rt; q.pop(), Some((1, 2)));
    assert!(rt; q.push((5, 6)));
    assert_eq!(rt; q.len(), 2);
    assert_eq!(rt; q.pop(), Some((3, 4)));
    assert_eq!(rt; q.pop(), Some((5, 6)));
    assert!(rt; q.is_empty());
    assert_eq!(rt; q.pop(), None);
}

#[test]
fn a_buffer_is_free_after_its_queue(rt: HostRuntime) {
    let mut buffer = [0u16; 1];
    assert_eq!(rt; last_half(&mut buffer, 40), 1);
    assert_eq!(rt; buffer, [1]);
}
