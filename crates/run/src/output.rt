// Writes text into a buffer: bytes, a number in decimal, a line of a key and a number, the answer to a call.
ghost use Rattle.std.specs.Prelude.{[], ◌∷◌, ◌≡◌, length};
ghost use Rattle.text.specs.Decimal.{decimal, line_of};
ghost use Rattle.run.specs.Output.{line, information_text, values_text, notice_text, notices_text, answer_text};
ghost use Rattle.run.specs.Output.{most_line, most_bad, most_value, most_values, most_notice, most_notices, most_answer};
ghost use Rattle.run.specs.Writer.{Room, Wrote};

use manager::{Answer, Information, Manager, Notice};

// A buffer, and how many bytes of it are written.
// No heap: the caller lends the whole buffer, so how far it is filled stands beside it.
#[derive(Drop)]
pub(crate) struct Writer<'a> {
    pub(crate) out: &'a mut [u8],
    pub(crate) len: usize,
}

impl<'a> Writer<'a> {
    // Nothing of the buffer is written.
    pub(crate) fn new(out: &'a mut [u8]) -> Writer<'a>
        ensures same { result.out.ghost_name ≡ out.entry.ghost_name }
        ensures buffer { result.out.now ≡ out.old }
        ensures empty { result.len ≡ 0 }
    {
        Writer { out, len: 0 }
    }

    // Writes the bytes behind what is written, as each method here does.
    fn text(&mut self, text: &[u8])
        requires { Room (length text.now) self.old }
        ensures { Wrote (length text.now) text.now self.old self.new }
    {
        let end = self.len + text.len();
        self.out[self.len..end].copy_from_slice(text);
        self.len = end;
    }

    fn byte(&mut self, b: u8)
        requires { Room 1 self.old }
        ensures { Wrote 1 (b ∷ []) self.old self.new }
    {
        self.out[self.len] = b;
        self.len += 1;
    }

    // Writes n in decimal.
    fn number(&mut self, n: u32)
        requires { Room (length (decimal n)) self.old }
        ensures { Wrote (length (decimal n)) (decimal n) self.old self.new }
    {
        if 10 <= n {
            self.number(n / 10);
        }
        self.byte(b'0' + (n % 10) as u8);
    }

    // Writes a line: key, n and a newline.
    fn line(&mut self, key: &[u8], n: u32)
        requires { Room (most_line (length key.now)) self.old }
        ensures { Wrote (most_line (length key.now)) (line_of key.now n) self.old self.new }
    {
        self.text(key);
        self.number(n);
        self.byte(b'\n');
    }

    // Writes the line that says which line is bad.
    pub(crate) fn bad(&mut self, n: u32)
        requires { Room most_bad self.old }
        ensures { Wrote most_bad (line "bad=" n) self.old self.new }
    {
        self.line(b"bad=", n);
    }

    // Writes one of an answer's values.
    fn value(&mut self, n: u32)
        requires { Room most_value self.old }
        ensures { Wrote most_value (line "value=" n) self.old self.new }
    {
        self.line(b"value=", n);
    }

    // Writes the six values of the information call.
    fn information(&mut self, i: &Information)
        requires { Room most_values self.old }
        ensures { Wrote most_values (information_text i.now) self.old self.new }
    {
        self.value(i.free_count);
        self.value(i.free_largest);
        self.value(i.free_total);
        self.value(i.held_count);
        self.value(i.held_largest);
        self.value(i.held_total);
    }

    // Writes an answer's value, or its six values where the call asks for information.
    fn values(&mut self, six: bool, a: &Answer)
        requires { Room most_values self.old }
        ensures { Wrote most_values (values_text six a.now) self.old self.new }
    {
        if six {
            self.information(&a.information);
        } else {
            self.value(a.value);
        }
    }

    // Writes the three lines of a notice.
    fn notice(&mut self, n: &Notice)
        requires { Room most_notice self.old }
        ensures { Wrote most_notice (notice_text n.now) self.old self.new }
    {
        self.line(b"task=", n.task);
        self.line(b"with=", u32::from(n.status));
        self.value(n.address);
    }

    // Writes the notices that are used.
    fn notices(&mut self, notices: &[Notice; Manager::TASKS])
        requires { Room most_notices self.old }
        ensures { Wrote most_notices (notices_text notices.now) self.old self.new }
    {
        for n in notices {
            if n.task != 0 {
                self.notice(n);
            }
        }
    }

    // Writes the answer to a call.
    pub(crate) fn answer(&mut self, six: bool, a: &Answer)
        requires { Room most_answer self.old }
        ensures { Wrote most_answer (answer_text six a.now) self.old self.new }
    {
        self.line(b"status=", u32::from(a.status));
        self.values(six, a);
        self.notices(&a.notices);
    }
}
