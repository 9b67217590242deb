// The lines of an input, one after the other.
ghost use Rattle.std.specs.Iterator.{YieldsFirstRef, item_count};
ghost use Rattle.text.specs.Fields.{lines};

// Inside the library: what LF ends, of what is left of an input; a last line may lack it, and a last LF starts none.
#[derive(Clone, Copy)]
pub struct Lines<'a>(pub &'a [u8]);

impl<'a> Iterator for Lines<'a> {
    type Item = &'a [u8];

    ghost next_gives = { YieldsFirstRef (λ s. lines s.0.now) };

    ghost remaining = { item_count (λ s. lines s.0.now) };

    fn next(&mut self) -> Option<&'a [u8]> {
        if self.0.is_empty() {
            return None;
        }
        let end = text::find(self.0, b'\n');
        let (line, rest) = self.0.split_at(end);
        self.0 = &rest[rest.len().min(1)..];
        Some(line)
    }
}
