// What a record asks for.
ghost use Rattle.std.specs.Prelude.{◌≡◌};
ghost use Rattle.rules.specs.Records.{length_of, request};

use frame::{byte, kind_field};
use rules::Request;

// The length of a record of each kind. A number that is no kind has none: 0 says so, as the rules define it (D44), and no record has 0 bytes.
pub fn length_of(kind: usize) -> usize
    ensures { result ≡ length_of kind }
{
    match kind {
        1 => 8,
        2 => 7,
        3 => 7,
        4 => 10,
        5 => 6,
        6 => 9,
        7 => 6,
        8 => 7,
        _ => 0,
    }
}

// The request of a record, its sender aside. A number that is no kind is refused before; what stands for it is off the sheet, and no Option, as
// the rules define it (D44).
pub fn request_of(b: &[u8]) -> Request
    ensures { result ≡ request b.now }
{
    let kind = kind_field(b);
    let b5 = byte(b, 5);
    let b6 = byte(b, 6);
    let b7 = byte(b, 7);
    let b8 = byte(b, 8);
    let b9 = byte(b, 9);
    match kind {
        1 => Request::Make {
            place: b5,
            sort: b6,
            group: b7,
        },
        2 => Request::Put {
            object: b5,
            group: b6,
        },
        3 => Request::Take {
            object: b5,
            group: b6,
        },
        4 => Request::Appoint {
            place: b5,
            kind: b6,
            holder: b7,
            a: b8,
            b: b9,
        },
        5 => Request::Dismiss { place: b5 },
        6 => Request::Grant {
            place: b5,
            users: b6,
            targets: b7,
            operations: b8,
        },
        7 => Request::Withdraw { place: b5 },
        8 => Request::Use {
            target: b5,
            operation: b6,
        },
        _ => Request::Use {
            target: 255,
            operation: 255,
        },
    }
}
