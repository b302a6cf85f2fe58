//! Laws of frames and of readers, in whatever chunks a stream comes.

ghost use Rattle.std.specs.Prelude.{◌≡◌, ◌↔◌, ℕ, ◌<◌, true, List, [], ◌++◌};
ghost use Rattle.std.specs.List.{AllByRecursion};
ghost use Rattle.sale_frame.specs.Grammar.{IsPayload, IsFrame, IsFrameRest, frame, Frames};
ghost use Rattle.sale_frame.specs.Decode.{is_frame, decode_frames, decode_after, with_payloads};
ghost use Rattle.sale_frame.specs.Steps.{FrameStep, IsFrameFault, TakesFrame, OnlyRefuses};
ghost use Rattle.gw_bytes.specs.Bytes.{AreBytes};
ghost use Rattle.gw_bytes.specs.Chunks.{Steps, fed, given};
ghost use Rattle.sale_frame.specs.declared.fault.FrameFault.{FrameFault};

/// No frame begins another: a stream that begins with a frame begins with no other.
pub fn no_frame_begins_another()
    ensures { (a b x y : List ℕ) → IsPayload a → IsPayload b → frame a ++ x ≡ frame b ++ y
        → (a ≡ b) × (x ≡ y) }
{}

/// The test of a frame finds exactly the frames of payloads.
pub fn frame_found()
    ensures { (bytes : List ℕ) → AreBytes bytes
        → is_frame bytes ≡ true ↔ IsFrame bytes }
{}

/// A stream is decoded in one way at most.
pub fn one_reading()
    ensures { (bytes : List ℕ) (a b : List (List ℕ)) (x y : List ℕ) → Frames bytes a x
        → Frames bytes b y → (a ≡ b) × (x ≡ y) }
{}

/// Each stream of bytes is decoded in one way: as `decode_frames` computes it.
pub fn reading()
    ensures { (bytes : List ℕ) → AreBytes bytes
        → Frames bytes (decode_frames bytes).payloads (decode_frames bytes).rest }
{}

/// One more chunk completes its own payloads, and changes none of those before.
pub fn chunk_more()
    ensures { (bytes chunk : List ℕ) → decode_frames (bytes ++ chunk)
        ≡ with_payloads (decode_frames bytes).payloads (decode_after (decode_frames bytes).rest chunk) }
{}

/// After a rest, a chunk completes the payloads that the two together have.
pub fn chunk_completes()
    ensures { (rest chunk left : List ℕ) (payloads : List (List ℕ)) → IsFrameRest rest
        → AreBytes (rest ++ chunk) → Frames (rest ++ chunk) payloads left
        → ((decode_after rest chunk).payloads ≡ payloads) × ((decode_after rest chunk).rest ≡ left) }
{}

/// However the calls on a reader went, the payloads returned, and then those of the bytes that
/// wait, are those of all bytes fed.
pub fn any_chunks()
    ensures { (steps : List FrameStep) (waiting rest : List ℕ) (payloads : List (List ℕ))
        → Steps TakesFrame [] steps waiting → Frames waiting payloads rest
        → Frames (fed steps) (given steps ++ payloads) rest }
{}

/// After a fault each result is this fault, whatever is fed.
pub fn refused_for_good()
    ensures { (waiting left : List ℕ) (fault : FrameFault) (steps : List FrameStep)
        → IsFrameFault waiting fault → Steps TakesFrame waiting steps left
        → AllByRecursion (OnlyRefuses fault) steps }
{}
