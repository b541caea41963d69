// The calls on files.
ghost use Rattle.std.specs.Prelude.{◌≡◌};
ghost use Rattle.node.specs.Note.{note_length as nodeNoteLength};
ghost use Rattle.node.specs.Verdict.{verdict_of as nodeVerdictOf};
ghost use Rattle.ranges.specs.Listing.{listing_of};
ghost use Rattle.rules.specs.Note.{note_length as certificateNoteLength};
ghost use Rattle.rules.specs.Verdict.{verdict_of};
ghost use Rattle.rules.specs.Versions.{version2};
ghost use Rattle.capi.specs.Answers.{told_node, told_certificate, told_plain};

use crate::told::Told;

// The verdict on a node file.
#[unsafe(no_mangle)]
pub extern "C" fn conuhawe_read(node: &[u8]) -> Told
    ensures { result ≡ told_node (nodeVerdictOf node.now) }
{
    node::verdict(node).into()
}

// The verdict on a node file and a certificate.
#[unsafe(no_mangle)]
pub extern "C" fn conuhawe_check(node: &[u8], cert: &[u8]) -> Told
    ensures { result ≡ told_certificate (verdict_of version2 node.now cert.now) }
{
    certificate::verdict(node, cert).into()
}

// The verdict on a node file and its table of ranges: least and greatest of stream 0, of stream 1, and on.
#[unsafe(no_mangle)]
pub extern "C" fn conuhawe_ranges(node: &[u8], table: &[i64]) -> Told
    ensures { result ≡ told_plain (listing_of node.now table.now) }
{
    ranges::listed(node, table).into()
}

// How many leading bytes of a node file are its note; 0 where 1 to 8 or 23 refuse it.
#[unsafe(no_mangle)]
pub extern "C" fn conuhawe_node_note(node: &[u8]) -> usize
    ensures { result ≡ nodeNoteLength node.now }
{
    node::note_length(node)
}

// How many leading bytes of a certificate are its note; 0 where 11 to 14 refuse it.
#[unsafe(no_mangle)]
pub extern "C" fn conuhawe_certificate_note(cert: &[u8]) -> usize
    ensures { result ≡ certificateNoteLength version2 cert.now }
{
    certificate::note_length(cert)
}
