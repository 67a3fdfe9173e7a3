ghost use Rattle.std.specs.Prelude.{◌≡◌, ◌≤◌, ◌++◌, length, drop};

use super::Writer;

// Two parts at the front of a buffer.
fn put_both(first: &[u8], second: &[u8], out: &mut [u8]) -> usize
    requires { length (first.now ++ second.now) ≤ length out.old }
    ensures count { result ≡ length (first.now ++ second.now) }
    ensures out { out.new ≡ (first.now ++ second.now) ++ drop result out.old }
{
    let mut writer = Writer::over(out);
    writer.put(first);
    writer.put(second);
    writer.count()
}

#[test]
fn parts_stand_one_after_another(rt: HostRuntime) {
    let mut out = [9u8; 6];
    assert_eq!(rt; put_both(b"ab", b"cde", &mut out), 5);
    assert_eq!(rt; out, *b"abcde\x09");
}
