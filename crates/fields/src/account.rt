// Accounts: whom a reading is billed to.
ghost use Rattle.std.specs.Prelude.{◌≡◌};
ghost use Rattle.std.specs.List.{list_all};
ghost use Rattle.fields.specs.Accounts.{account_byte, is_account};

// The most bytes of an account.
const MAX_ACCOUNT: usize = 12;

fn is_account_byte(byte: u8) -> bool
    ensures { result ≡ account_byte byte }
{
    byte.is_ascii_uppercase() || byte.is_ascii_digit()
}

fn are_account_bytes(bytes: &[u8]) -> bool
    ensures { result ≡ list_all account_byte bytes.now }
{
    bytes.iter().all(|&byte| is_account_byte(byte))
}

// 1 to 12 of A to Z and 0 to 9.
pub fn is_account(bytes: &[u8]) -> bool
    ensures { result ≡ is_account bytes.now }
{
    !bytes.is_empty() && bytes.len() <= MAX_ACCOUNT && are_account_bytes(bytes)
}
