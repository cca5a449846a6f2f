//! What a translator stands for and what is left of an answer, over any cut. No code runs here: each law is the contract of an empty function.
ghost use Rattle.std.specs.Prelude.{◌≡◌, ◌≤◌, ◌+◌, ℕ, List, [], ◌++◌, length, map, Some, None, true, false};
ghost use Rattle.httparse.specs.Grammar as grammar;
ghost use Rattle.httparse.specs.Grammar.{LineEnd, ReadsSection};
ghost use Rattle.httparse.specs.Spans.{name_and_value};
ghost use Rattle.http_model.specs.Head.{Field};
ghost use Rattle.http_model.specs.declared.Ending.TheVariants.{Broke};
ghost use Rattle.fcgi_lane.specs.Answer.Flow.{Flow, Passes, fresh, is_going};
ghost use Rattle.fcgi_lane.specs.Answer.Section.{section_at};
ghost use Rattle.fcgi_lane.specs.Answer.Head.{Headed, head_at};
ghost use Rattle.fcgi_lane.specs.Answer.Cgi.{InHead, Behind, NoHead, left_of, ending_at, no_stream, cgi_of};
ghost use Rattle.fcgi_lane.specs.Answer.Room.{most_more};
ghost use Rattle.fcgi_lane.specs.Answer.Stands.{Stands};

/// The fields that are read byte by byte are the sections of `httparse`'s grammar, with their values between blanks, and no other.
pub fn section_is_the_grammar()
    ensures read { (bytes : List ℕ) (fields : List grammar.Field) (last : LineEnd) (rest : List ℕ) → ReadsSection bytes fields last rest → section_at bytes ≡ Some (map name_and_value fields, rest) }
    ensures only { (bytes : List ℕ) (fields : List Field) (rest : List ℕ) → section_at bytes ≡ Some (fields, rest)
        → (of : List grammar.Field) × (last : LineEnd) × ReadsSection bytes of last rest × (map name_and_value of ≡ fields) }
{}

/// A head stays where it is when more follows.
pub fn head_stays()
    ensures { (limit : ℕ) (text more : List ℕ) (head : Headed) → head_at limit text ≡ Some head → head_at limit (text ++ more) ≡ Some (head.0, head.1 ++ more) }
{}

/// A translator that has read nothing stands for nothing. Bytes that it reads join those that it stands for, in the head and behind it; a head that is
/// whole is left to give, with the output behind it; where none can come, none is; what is given is no longer left.
pub fn any_cut()
    ensures new { (limit : ℕ) → Stands (record { limit = limit; head = InHead []; flow = fresh }) [] [] }
    ensures head { (limit : ℕ) (text xs out given bytes : List ℕ) (a b : Flow) → Passes a xs b out → Stands (record { limit = limit; head = InHead text; flow = a }) given bytes
        → Stands (record { limit = limit; head = InHead (text ++ out); flow = b }) given (bytes ++ xs) }
    ensures begun { (limit : ℕ) (text given bytes : List ℕ) (flow : Flow) (h : Headed) → head_at limit text ≡ Some h → Stands (record { limit = limit; head = InHead text; flow = flow }) given bytes
        → Stands (record { limit = limit; head = Behind (h.0 ++ h.1); flow = flow }) given bytes }
    ensures none { (limit : ℕ) (text given bytes : List ℕ) (flow : Flow) → ((rest : List ℕ) → head_at limit (text ++ rest) ≡ None) → Stands (record { limit = limit; head = InHead text; flow = flow }) given bytes
        → Stands (record { limit = limit; head = NoHead; flow = flow }) given bytes }
    ensures behind { (limit : ℕ) (left xs out given bytes : List ℕ) (a b : Flow) → Passes a xs b out → Stands (record { limit = limit; head = Behind left; flow = a }) given bytes
        → Stands (record { limit = limit; head = Behind (left ++ out); flow = b }) given (bytes ++ xs) }
    ensures given { (limit : ℕ) (front left given bytes : List ℕ) (flow : Flow) → Stands (record { limit = limit; head = Behind (front ++ left); flow = flow }) given bytes
        → Stands (record { limit = limit; head = Behind left; flow = flow }) (given ++ front) bytes }
{}

/// What is left, over any cut: behind the head the output as it comes, nothing more once the request has ended or is faulty, and a stream that breaks off
/// where the application's bytes end while the request goes on, or in front of the end of its head.
pub fn what_is_left()
    ensures passes { (limit : ℕ) (left xs out rest : List ℕ) (a b : Flow) → Passes a xs b out → left_of limit (Behind left) a (xs ++ rest) ≡ left_of limit (Behind (left ++ out)) b rest }
    ensures stopped { (limit : ℕ) (left rest : List ℕ) (flow : Flow) → is_going flow.place ≡ false → left_of limit (Behind left) flow rest ≡ record { bytes = left; ending = ending_at flow.place } }
    ensures cut { (limit : ℕ) (left : List ℕ) (flow : Flow) → is_going flow.place ≡ true → left_of limit (Behind left) flow [] ≡ record { bytes = left; ending = Broke } }
    ensures unheaded { (limit : ℕ) (text : List ℕ) (flow : Flow) → head_at limit text ≡ None → left_of limit (InHead text) flow [] ≡ no_stream }
{}

/// An HTTP stream has at most so many bytes more than the application's own: its head may be longer.
pub fn stream_is_short()
    ensures { (limit : ℕ) (bytes : List ℕ) → length (cgi_of limit bytes).bytes ≤ length bytes + most_more }
{}
