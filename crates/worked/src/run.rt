// Running the cases: the words of the text one after the other.
use crate::answers::Answer;
use crate::asks::{AREA, Asks, FILL, answer};
use crate::build::{bytes_of, number, put};
use crate::lines::{area_differs, differs, group_sums, not_understood, nothing_asked, sums};
use crate::state::{Next, Run, Wanted};
use std::io;

impl<'a> Run<'a> {
    // A word that can't be run counts as a case that differs, so that it isn't overlooked.
    fn fault(&mut self, rt: &impl Print) -> io::Result<()> {
        self.next = Next::Any;
        self.sums.one_differs();
        not_understood(rt, self.line)
    }

    // So does a case that ends with nothing asked of it.
    fn end_case(&mut self, rt: &impl Print) -> io::Result<()> {
        if self.asked {
            return Ok(());
        }
        self.sums.one_differs();
        nothing_asked(rt, self.line)
    }

    fn case(&mut self, rt: &impl Print) -> io::Result<()> {
        self.end_case(rt)?;
        self.new_case();
        Ok(())
    }

    // Writes the group's sums, if there was one, and starts another.
    fn group(&mut self, rt: &impl Print) -> io::Result<()> {
        self.end_case(rt)?;
        if let Some(name) = self.name {
            group_sums(rt, name, self.sums)?;
        }
        self.new_group();
        Ok(())
    }

    // A text that ends where a word is still asked for is a fault.
    fn end(&mut self, rt: &impl Print) -> io::Result<()> {
        if !matches!(self.next, Next::Any) {
            self.fault(rt)?;
        }
        self.group(rt)?;
        sums(rt, self.all)
    }

    // A word that has to be bytes of the pack or of the result area.
    fn bytes(&mut self, rt: &impl Print, word: &[u8]) -> io::Result<()> {
        let Some(bytes) = bytes_of(word) else {
            return self.fault(rt);
        };
        if self.in_area {
            put(bytes, &mut self.listing);
        } else {
            put(bytes, &mut self.pack);
        }
        Ok(())
    }

    // A word that no other asked for.
    fn any_word(&mut self, rt: &impl Print, word: &[u8]) -> io::Result<()> {
        match word {
            b"group" => return self.group(rt),
            b"case" => return self.case(rt),
            b"area" => self.in_area = true,
            b"room" => self.next = Next::Number(Wanted::Room),
            b"formed" => self.next = Next::Number(Wanted::Number(Asks::Formed)),
            b"types" => self.next = Next::Number(Wanted::Number(Asks::Types)),
            b"root" => self.next = Next::Number(Wanted::Root),
            b"order" => self.next = Next::Number(Wanted::Number(Asks::Order)),
            _ => return self.bytes(rt, word),
        }
        Ok(())
    }

    // A number that was asked for.
    fn number(&mut self, rt: &impl Print, wanted: Wanted, n: u64) -> io::Result<()> {
        match wanted {
            Wanted::Room => {
                self.room = usize::try_from(n).unwrap_or(AREA);
                self.next = Next::Any;
            }
            Wanted::Root => self.next = Next::Number(Wanted::Number(Asks::Root(n))),
            Wanted::Number(asks) => self.next = Next::Number(Wanted::Place(asks, n)),
            Wanted::Place(asks, number) => {
                self.next = Next::Number(Wanted::Detail(asks, number, n));
            }
            Wanted::Detail(asks, number, place) => {
                let detail = n;
                let answer = Answer {
                    number,
                    place,
                    detail,
                };
                return self.ask(rt, asks, answer);
            }
        }
        Ok(())
    }

    // What is asked is answered, if pack and area had room for all their bytes. The entries' frames are large, and lie in this one's.
    #[inline(never)]
    fn ask(&mut self, rt: &impl Print, asks: Asks, wanted: Answer) -> io::Result<()> {
        if self.pack.is_full() || self.listing.is_full() {
            return self.fault(rt);
        }
        self.next = Next::Any;
        self.asked = true;
        self.sums.one_case();
        self.hold(rt, asks, wanted)
    }

    // Holds the answer to what is wanted.
    fn hold(&mut self, rt: &impl Print, asks: Asks, wanted: Answer) -> io::Result<()> {
        if asks.writes() {
            return self.hold_written(rt, asks, wanted);
        }
        let came = answer(asks, self.pack.bytes(), &mut []);
        self.hold_answer(rt, wanted, came)
    }

    fn hold_answer(&mut self, rt: &impl Print, wanted: Answer, came: Answer) -> io::Result<()> {
        if came == wanted {
            return Ok(());
        }
        self.sums.one_differs();
        differs(rt, self.line, wanted, came)
    }

    // Holds the area as well. It has to begin with what is listed, and all else of it stays.
    fn hold_written(&mut self, rt: &impl Print, asks: Asks, wanted: Answer) -> io::Result<()> {
        let mut after = [FILL; AREA];
        for (byte, listed) in after.iter_mut().zip(self.listing.bytes()) {
            *byte = *listed;
        }
        let mut area = [FILL; AREA];
        let room = self.room.min(AREA);
        let came = answer(asks, self.pack.bytes(), &mut area[..room]);
        if came != wanted || area == after {
            return self.hold_answer(rt, wanted, came);
        }
        self.sums.one_differs();
        area_differs(rt, self.line)
    }

    fn word(&mut self, rt: &impl Print, word: &'a [u8]) -> io::Result<()> {
        match self.next {
            Next::Any => self.any_word(rt, word),
            Next::Name => {
                self.name = Some(word);
                self.next = Next::Any;
                Ok(())
            }
            Next::Number(wanted) => match number(word) {
                Some(n) => self.number(rt, wanted, n),
                None => self.fault(rt),
            },
        }
    }

    // The words of the next line, but for those of its comment.
    fn line(&mut self, rt: &impl Print, text: &'a [u8]) -> io::Result<()> {
        self.line = self.line.saturating_add(1);
        // An empty line has no words.
        if text.is_empty() {
            return Ok(());
        }
        if let Some(words) = text.split(|b| *b == b'#').next() {
            for word in words.split(|b| *b == b' ').filter(|w| !w.is_empty()) {
                self.word(rt, word)?;
            }
        }
        Ok(())
    }
}

pub(crate) fn run_all(rt: &impl Print, text: &[u8]) -> io::Result<()> {
    let mut run = Run::begun();
    for line in text.split(|b| *b == b'\n') {
        run.line(rt, line)?;
    }
    run.end(rt)
}
