// Laws over every list of bytes and every cut of it into pieces. Each is a function with an empty body, whose contract is
// the law.
ghost use Rattle.http_wire.specs.Wire.{OneAnswerList, FrontsStay, AnyCut, NothingHeldBack, NoneWithout};

/// Bytes have one list of answers and one rest.
pub fn bytes_have_one_answer_list()
    ensures { OneAnswerList }
{}

/// What a front of bytes gives, every continuation of it gives first.
pub fn fronts_stay_answered()
    ensures { FrontsStay }
{}

/// However the bytes are cut, the answers of `feed` are a front of what the joined bytes give, and the wire holds what
/// none of them took. `More` and want of memory don't count, and a refusal that is repeated counts once.
pub fn any_cut_is_taken_in_order()
    ensures { AnyCut }
{}

/// Where a wire waits for more bytes, it has answered all that the bytes give. Only the refusal of what can't become a head
/// may be missing, before as many bytes are held as a head may have.
pub fn nothing_is_held_back()
    ensures { NothingHeldBack }
{}

/// No bytes are without a list of answers.
pub fn no_bytes_are_without_answers()
    ensures { NoneWithout }
{}
