//! What the text of a writer means, as laws of what it has written. A caller cites them by these functions.
ghost use Rattle.std.specs.Prelude.{◌≡◌, ◌++◌, [], true, false, List, ℕ, Bool};
ghost use Rattle.htx_model.specs.Block.{Block};
ghost use Rattle.htx_model.specs.Blocks.{flow, append_data};
ghost use Rattle.http_model.specs.declared.Framing.{Framing};
ghost use Rattle.http_model.specs.Head.{Message, front_blocks, message_blocks};
ghost use Rattle.http_model.specs.Spelling.{Spells};
ghost use Rattle.h1_write.specs.declared.writer.Writer.{Writer};
ghost use Rattle.h1_write.specs.Spelled.{HasWritten, IsEven, is_done, has_ended};
ghost use Rattle.http_model.specs.declared.Framing.TheVariants.{ToClose};
ghost use Rattle.h1_write.specs.Kept.{KeepsFront};
ghost use Rattle.http_model.specs.declared.Limits.{Limits};
ghost use Rattle.h1_write.specs.ReadBack.{IsFinished, IsRead, IsWithin, ReadsHead, ReadsMessage};

/// At every moment the text is the front of a spelling of each message whose blocks go on so.
pub fn spells_a_front()
    ensures { (framing : Framing) (no_body : Bool) (taken left more : List Block) (text : List ℕ) (writer : Writer) (m : Message)
        → HasWritten framing no_body taken left text writer → (has_ended writer ≡ true → more ≡ []) → m.framing ≡ framing → flow (taken ++ (left ++ more)) ≡ message_blocks m
        → (rest : List ℕ) × Spells true no_body m (text ++ rest) }
{}

/// Once all was written the text spells the message of the blocks that were taken.
pub fn spells_the_whole()
    ensures { (framing : Framing) (no_body : Bool) (taken left : List Block) (text : List ℕ) (writer : Writer) (m : Message)
        → HasWritten framing no_body taken left text writer → is_done writer ≡ true → m.framing ≡ framing → flow taken ≡ message_blocks m
        → Spells true no_body m text }
{}

/// Where the end never comes, and nothing is begun that isn't whole, the text spells the message that is cut behind the
/// data that was taken.
pub fn spells_the_cut()
    ensures { (framing : Framing) (no_body : Bool) (taken left : List Block) (text : List ℕ) (writer : Writer) (m : Message)
        → HasWritten framing no_body taken left text writer → IsEven writer → is_done writer ≡ false → m.framing ≡ framing → flow taken ≡ front_blocks m.head m.body
        → Spells false no_body m text }
{}

/// Blocks may come behind those that are left, and data behind the last of them, also while a chunk of it is begun.
pub fn goes_on()
    ensures { (framing : Framing) (no_body : Bool) (taken left grown : List Block) (text : List ℕ) (writer : Writer)
        → HasWritten framing no_body taken left text writer → has_ended writer ≡ false → KeepsFront left grown
        → HasWritten framing no_body taken grown text writer }
{}

/// What is appended keeps the front.
pub fn keeps()
    ensures blocks { (bs cs : List Block) → KeepsFront bs (bs ++ cs) }
    ensures bytes { (bs : List Block) (p : List ℕ) → KeepsFront bs (append_data bs p) }
{}

/// What spells a finished message is read back as that message, whatever follows it: the grammar of heads and of bodies gives its
/// line, its fields, its body and its trailers, and then what follows. A text without a body is read back as its head.
pub fn read_back()
    ensures message { (m : Message) (text more : List ℕ) → IsFinished m → Spells true false m text → (m.framing ≡ ToClose → more ≡ []) → ReadsMessage m (text ++ more) more }
    ensures alone { (m : Message) (text more : List ℕ) → IsFinished m → Spells true true m text → ReadsHead m.head.line m.head.fields (text ++ more) more }
{}

/// Within the limits of the readers here, they read it so too, where the stream is closed behind what follows.
pub fn reads_within()
    ensures { (limits : Limits) (m : Message) (text more : List ℕ) → IsFinished m → IsWithin limits m.framing m.body m.trailers → Spells true false m text → (m.framing ≡ ToClose → more ≡ [])
        → IsRead limits m (text ++ more) more }
{}
