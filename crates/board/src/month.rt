// The names of the months.
ghost use Rattle.std.specs.Prelude.{◌≡◌, ◌≤◌};
ghost use Rattle.board.specs.Print.{month_name};

// The names of the twelve months.
const MONTHS: [[u8; 3]; 12] = [
    *b"Jan", *b"Feb", *b"Mar", *b"Apr", *b"May", *b"Jun", *b"Jul", *b"Aug", *b"Sep", *b"Oct",
    *b"Nov", *b"Dec",
];

// The name of a month, 1 to 12.
pub(crate) fn month_name(month: u64) -> [u8; 3]
    requires { (1 ≤ month) × (month ≤ 12) }
    ensures { result ≡ month_name month }
{
    MONTHS[(month - 1) as usize]
}
