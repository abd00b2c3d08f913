//! Laws of the spellings of packets: each packet has one, and how long it is.
ghost use Rattle.std.specs.Prelude.{◌≡◌, ◌≤◌, ℕ, length};
ghost use Rattle.walter_base.specs.declared.packet.Packet.{Packet};
ghost use Rattle.walter_base.specs.Sizes.{size_of_packet, CanBeSent};
ghost use Rattle.walter_packet.specs.Spelling.{packet_spelled, HasPacketSpelling};

/// Among so many sites, packets with the same spelling are the same.
pub fn one_spelling()
    ensures { (sites : ℕ) (a b : Packet) → HasPacketSpelling sites a → HasPacketSpelling sites b
        → packet_spelled a ≡ packet_spelled b → a ≡ b }
{}

/// How long a spelling is, and that it has at most 60,074 bytes.
pub fn size_of_spelling()
    ensures size { (packet : Packet) → CanBeSent packet → length (packet_spelled packet) ≡ size_of_packet packet }
    ensures most { (packet : Packet) → CanBeSent packet → length (packet_spelled packet) ≤ 60074 }
{}
