//! Bytes on the connection of a played terminal, in chunks, and the requests that they complete.
ghost use Rattle.std.specs.Prelude.{◌≡◌, ◌≤◌, ◌+◌, ◌*◌, ◌++◌, [], length, vec_len, vec_capacity, IfOk, OnErr};
ghost use Rattle.std.specs.Bool.{OnFalse};
ghost use Rattle.zvt_apdu.specs.Decode.{DecodedApdu, decode_apdu};
ghost use Rattle.zvt_apdu.specs.DecodeStream.{decode_apdus};
ghost use Rattle.pt_core.specs.Serving.{heard};
ghost use Rattle.pt_core.specs.inner.Results.{account_value, HearsAll};

use crate::account::Account;
use gw_bytes::LONGEST_CHUNK;
use std::alloc::AllocError;
use zvt_apdu::{ApduReader, law_decode_apdus};

/// What is sent for one request has at most so many bytes.
const REACTION: usize = 32;

impl Account<'_> {
    /// Serves the requests that these bytes complete. True where the connection is cut.
    ///
    /// Memory is taken before the first byte is heard: each byte completes one request at most.
    pub(crate) fn hear(
        &mut self,
        reader: &mut ApduReader,
        bytes: &[u8],
        out: &mut Vec<u8>,
    ) -> Result<bool, AllocError>
        requires waits { decode_apdu reader.old ≡ DecodedApdu.Incomplete }
        requires empty { out.old.items ≡ [] }
        ensures ok { IfOk result (λ cut. HearsAll self.old reader.old bytes.now self.new reader.new out.new.items cut) }
        ensures none { self.new.none ≡ self.old.none }
        ensures plays { self.new.plays ≡ self.old.plays }
        ensures waits { decode_apdu reader.new ≡ DecodedApdu.Incomplete }
        ensures account_stays { OnErr result (account_value self.new ≡ account_value self.old) }
        ensures reader_stays { OnErr result (reader.new ≡ reader.old) }
    {
        out.reserve(bytes.len().checked_mul(REACTION).ok_or(AllocError)?)?;
        self.entries.reserve(bytes.len())?;
        let cut = self.hear_chunks(reader, bytes, out);
        if cut {
            reader.clear();
        }
        Ok(cut)
    }

    /// Serves the requests that these bytes complete, as `hear` does, where there is room for what is sent for each and every entry. It is
    /// apart from it so that no memory is asked for once a byte is heard.
    fn hear_chunks(&mut self, reader: &mut ApduReader, bytes: &[u8], out: &mut Vec<u8>) -> bool
        requires waits { decode_apdu reader.old ≡ DecodedApdu.Incomplete }
        requires sent_room { vec_len out.old + 32 * length bytes.now ≤ vec_capacity out.old }
        requires book_room { vec_len self.old.entries + length bytes.now ≤ vec_capacity self.old.entries }
        ensures account { account_value self.new ≡ (heard (account_value self.old) (reader.old ++ bytes.now)).account }
        ensures bytes { out.new.items ≡ out.old.items ++ (heard (account_value self.old) (reader.old ++ bytes.now)).bytes }
        ensures cut { result ≡ (heard (account_value self.old) (reader.old ++ bytes.now)).cut }
        ensures none { self.new.none ≡ self.old.none }
        ensures plays { self.new.plays ≡ self.old.plays }
        ensures rest { OnFalse result (reader.new ≡ (decode_apdus (reader.old ++ bytes.now)).rest) }
        ensures waits { OnFalse result (decode_apdu reader.new ≡ DecodedApdu.Incomplete) }
    {
        law_decode_apdus();
        let mut rest = bytes;
        'chunks: while !rest.is_empty() {
            let (chunk, more) = rest.split_at(rest.len().min(LONGEST_CHUNK));
            reader.feed(chunk);
            if self.serve_all(reader, out) {
                return true;
            }
            rest = more;
        }
        false
    }

    /// Serves the requests that wait whole. True where the connection is cut, at one of them or at what can't begin one.
    fn serve_all(&mut self, reader: &mut ApduReader, out: &mut Vec<u8>) -> bool
        requires sent_room { vec_len out.old + 32 * length (decode_apdus reader.old).apdus ≤ vec_capacity out.old }
        requires book_room { vec_len self.old.entries + length (decode_apdus reader.old).apdus ≤ vec_capacity self.old.entries }
        ensures account { account_value self.new ≡ (heard (account_value self.old) reader.old).account }
        ensures bytes { out.new.items ≡ out.old.items ++ (heard (account_value self.old) reader.old).bytes }
        ensures cut { result ≡ (heard (account_value self.old) reader.old).cut }
        ensures none { self.new.none ≡ self.old.none }
        ensures plays { self.new.plays ≡ self.old.plays }
        ensures rest { OnFalse result (reader.new ≡ (decode_apdus reader.old).rest) }
        ensures waits { OnFalse result (decode_apdu reader.new ≡ DecodedApdu.Incomplete) }
        ensures sent_len { vec_len out.new ≤ vec_len out.old + 32 * length (decode_apdus reader.old).apdus }
        ensures sent_capacity { vec_capacity out.old ≤ vec_capacity out.new }
        ensures book_len { vec_len self.new.entries ≤ vec_len self.old.entries + length (decode_apdus reader.old).apdus }
        ensures book_capacity { vec_capacity self.old.entries ≤ vec_capacity self.new.entries }
    {
        law_decode_apdus();
        'requests: loop {
            let apdu = match reader.next() {
                Err(_) => return true,
                Ok(None) => return false,
                Ok(Some(apdu)) => apdu,
            };
            if self.serve(&apdu, out) {
                return true;
            }
        }
    }
}
