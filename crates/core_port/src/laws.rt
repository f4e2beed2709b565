ghost use Rattle.core_port.specs.CorePort.{NoRoomIsThePlays};

/// Where a port has no room, as many SMCs were made as it makes, or the play at which it stands refuses this one.
pub fn no_room_is_the_plays()
    ensures { NoRoomIsThePlays }
{}
