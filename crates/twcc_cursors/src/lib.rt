// The parts of a TWCC block: its header, its chunks, its deltas and its packets. Chunks, deltas and packets are cursors by value;
// `next` hands back what stands there and the next cursor. Every function takes any block. The block is no field of a cursor, and a cursor
// no iterator: the walk that proofs/Walking speaks of is over cursors as plain numbers, beside one block.
#![tactic(auto)]

ghost use Rattle.std.specs.Prelude.{◌≡◌, ◌+◌, ◌*◌, ◌≤◌, ◌<◌, drop};
ghost use Rattle.twcc.specs.Words.{signed16};
ghost use Rattle.twcc.specs.Time.{latest, time_of};
ghost use Rattle.refusal.specs.Said.{said};
ghost use Rattle.twcc_cursors.specs.Cursors.{headed, counts_of, next_chunk, full_chunk, next_delta};
ghost use Rattle.twcc_cursors.specs.Packets.{opened, packet_at, next_packet};

use kinds::{RefTime, Seq};
use refusal::Refusal;
use twcc::{NOT_RECEIVED, RESERVED, TRUNCATED};

// The time of 24 bits.
fn time_of(bits: u32) -> RefTime
    requires { bits ≤ latest }
    ensures { result.0 ≡ time_of bits }
{
    RefTime(bits)
}

// A block's header.
#[derive(Clone, Copy, Debug, PartialEq, Eq)]
pub struct Header {
    pub base: Seq,
    pub statuses: u16,
    pub time: RefTime,
    pub feedback: u8,
}

impl Header {
    // The header of a block of at least eight bytes.
    #[tactic(auto, unfolding(crate::specs::Cursors::headed), using(std::proofs::lemmas::Bool::Decides::nat_tests))]
    pub fn of(block: &[u8]) -> Result<Header, Refusal>
        ensures { said result ≡ headed block.now }
    {
        if block.len() < 8 {
            return Err(Refusal::Truncated {
                expected: 8,
                actual: block.len(),
            });
        }
        let base = u16::from_be_bytes([block[0], block[1]]);
        let statuses = u16::from_be_bytes([block[2], block[3]]);
        let time = u32::from_be_bytes([0, block[4], block[5], block[6]]);
        let feedback = block[7];
        Ok(Header {
            base: Seq(base),
            statuses,
            time: time_of(time),
            feedback,
        })
    }
}

// The chunks to come: where the next one stands, and the statuses left.
#[derive(Clone, Copy, Debug, PartialEq, Eq)]
pub struct Chunks {
    pub at: usize,
    pub left: usize,
}

// A chunk, how many entries it lists, and the chunks after it.
#[derive(Clone, Copy, Debug, PartialEq, Eq)]
pub struct NextChunk {
    pub chunk: usize,
    pub count: usize,
    pub next: Chunks,
}

impl Chunks {
    #[tactic(auto, unfolding(crate::specs::Cursors::next_chunk), using(std::proofs::lemmas::Bool::Decides::nat_tests))]
    pub fn next(self, block: &[u8]) -> Option<NextChunk>
        ensures { result ≡ next_chunk block.now self }
    {
        let at = self.at;
        let left = self.left;
        if left == 0 || block.len() < 2 || block.len() - 2 < at {
            return None;
        }
        let chunk = octets::be16_at(block, at);
        let size = twcc::size(chunk);
        let count = octets::lesser(left, size);
        Some(NextChunk {
            chunk,
            count,
            next: Chunks {
                at: at + 2,
                left: left - count,
            },
        })
    }

    // The next chunk that lists an entry: a run of length 0 costs its two bytes.
    fn next_full(self, block: &[u8]) -> Option<NextChunk>
        ensures { result ≡ full_chunk (drop self.at block.now) self.at self.left }
    {
        let mut c = self;
        while let Some(got) = c.next(block) {
            if 0 < got.count {
                return Some(got);
            }
            c = got.next;
        }
        None
    }
}

// How many entries a block lists, and where its deltas start.
#[derive(Clone, Copy, Debug, PartialEq, Eq)]
pub struct Counts {
    pub listed: usize,
    pub start: usize,
}

pub fn count(block: &[u8]) -> Counts
    ensures { result ≡ counts_of block.now }
{
    let Ok(header) = Header::of(block) else {
        return Counts {
            listed: 0,
            start: block.len(),
        };
    };
    let mut c = Chunks {
        at: 8,
        left: usize::from(header.statuses),
    };
    let mut listed = 0;
    while let Some(got) = c.next(block) {
        listed += got.count;
        c = got.next;
    }
    Counts {
        listed,
        start: c.at,
    }
}

// A large delta: two bytes as a signed number. By `from_be_bytes` the reader's two-bit vectors would take more instructions (139 for 133).
#[tactic(auto, using(crate::proofs::Steps::signed_high))]
pub fn large(high: u8, low: u8) -> i32
    ensures { result ≡ signed16 (256 * high + low) }
{
    256 * i32::from(high.cast_signed()) + i32::from(low)
}

// The deltas to come: where the next one stands.
#[derive(Clone, Copy, Debug, PartialEq, Eq)]
pub struct Deltas {
    pub at: usize,
}

// An entry's status word, and the deltas after it.
#[derive(Clone, Copy, Debug, PartialEq, Eq)]
pub struct Delta {
    pub word: i32,
    pub next: Deltas,
}

impl Deltas {
    // The entry with this symbol. Of a large delta's bytes it eats what is there.
    #[tactic(auto, unfolding(crate::specs::Cursors::next_delta), using(crate::proofs::Steps::deltas))]
    pub fn next(self, block: &[u8], symbol: usize) -> Delta
        ensures { result ≡ next_delta block.now self symbol }
    {
        let at = self.at;
        if symbol == 0 {
            return Delta {
                word: NOT_RECEIVED,
                next: self,
            };
        }
        if 2 < symbol {
            return Delta {
                word: RESERVED,
                next: self,
            };
        }
        if block.len() <= at {
            return Delta {
                word: TRUNCATED,
                next: self,
            };
        }
        if symbol == 1 {
            return Delta {
                word: block[at] as i32,
                next: Deltas { at: at + 1 },
            };
        }
        if block.len() <= at + 1 {
            return Delta {
                word: TRUNCATED,
                next: Deltas { at: at + 1 },
            };
        }
        let word = large(block[at], block[at + 1]);
        Delta {
            word,
            next: Deltas { at: at + 2 },
        }
    }
}

// The packets to come, as the Rust's `packets` gives them: the next one's number, the chunk being listed, the next symbol's place in it and how many it
// lists, the chunks after it, and the deltas.
#[derive(Clone, Copy, Debug, PartialEq, Eq)]
pub struct Packets {
    pub number: Seq,
    pub chunk: usize,
    pub place: usize,
    pub end: usize,
    pub chunks: Chunks,
    pub deltas: Deltas,
}

// A packet's number and status word, and the packets after it.
#[derive(Clone, Copy, Debug, PartialEq, Eq)]
pub struct NextPacket {
    pub number: Seq,
    pub word: i32,
    pub next: Packets,
}

impl Packets {
    // All packets of a block, from its base on.
    #[tactic(auto, unfolding(crate::specs::Cursors::headed, crate::specs::Packets::opened), using(std::proofs::lemmas::Bool::Decides::nat_tests))]
    pub fn of(block: &[u8]) -> Result<Packets, Refusal>
        ensures { said result ≡ opened block.now }
    {
        let header = Header::of(block)?;
        let counts = count(block);
        Ok(Packets {
            number: header.base,
            chunk: 0,
            place: 0,
            end: 0,
            chunks: Chunks {
                at: 8,
                left: usize::from(header.statuses),
            },
            deltas: Deltas { at: counts.start },
        })
    }

    // The packet at the place in the chunk being listed.
    #[tactic(auto, unfolding(crate::specs::Packets::packet_at), using(std::proofs::lemmas::Int::ints))]
    fn here(self, block: &[u8]) -> NextPacket
        requires { self.place < self.end }
        ensures { result ≡ packet_at block.now self }
    {
        let number = self.number;
        let delta = self
            .deltas
            .next(block, twcc::symbol_at(self.chunk, self.place));
        NextPacket {
            number,
            word: delta.word,
            next: Packets {
                number: number.next(),
                place: self.place + 1,
                deltas: delta.next,
                ..self
            },
        }
    }

    // The number moves on for each packet listed, an unreadable one too.
    #[tactic(auto, unfolding(crate::specs::Packets::next_packet), using(crate::proofs::Steps::packets))]
    pub fn next(self, block: &[u8]) -> Option<NextPacket>
        ensures { result ≡ next_packet block.now self }
    {
        if self.place < self.end {
            return Some(self.here(block));
        }
        let got = self.chunks.next_full(block)?;
        let packets = Packets {
            chunk: got.chunk,
            place: 0,
            end: got.count,
            chunks: got.next,
            ..self
        };
        Some(packets.here(block))
    }
}
